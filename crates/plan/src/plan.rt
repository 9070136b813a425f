//! Plans.

ghost use Rattle.std.specs.Prelude.{◌≡◌, ◌≢◌, ◌==◌, [], IfErr, IfOk, OnOk};
ghost use Rattle.std.specs.List.{list_any};
ghost use Rattle.plan.specs.Drafts.{AddsLine, BreaksLine};
ghost use Rattle.plan.specs.Grammar.{OnText, SaysOperation};
ghost use Rattle.text.specs.Words.{words};
ghost use Rattle.plan.specs.Plans.{KeepsRules, PlanView, by_parts, made, with_operation};

use crate::fault::PlanCode;
use crate::operation::{Action, Operation};
use crate::operation_line::worded_operation;
use crate::validation::check_action;
use nova_log::Layout;
use std::alloc::Global;
use std::marker::Model;

/// The volume that a run begins with, and which operations it has.
#[derive(Debug, Drop)]
pub struct Plan {
    layout: Layout,
    inodes: u32,
    pages: u32,
    journals: u32,
    operations: Vec<Operation>,
}

impl Model for Plan {
    ghost use Rattle.plan.specs.Plans.{KeepsRules, PlanView, by_parts};

    ghost Value = { PlanView };

    ghost view = { λ plan. by_parts plan.layout plan.inodes plan.pages plan.journals plan.operations.items };

    ghost invariant = { λ plan. KeepsRules 4 (by_parts plan.layout plan.inodes plan.pages plan.journals plan.operations.items) };
}

/// Whether one of the operations has this number.
fn is_taken(operations: &[Operation], number: u64) -> bool
    ensures { result ≡ list_any (λ operation. operation.number == number) operations.now }
{
    operations
        .iter()
        .any(|operation| operation.number == number)
}

impl Plan {
    /// A plan without operations, which will be stored with `alloc`.
    pub(crate) fn new(alloc: Global, layout: Layout, inodes: u32, pages: u32, journals: u32) -> Plan
        ensures { result ≡ by_parts layout inodes pages journals [] }
    {
        Plan {
            layout,
            inodes,
            pages,
            journals,
            operations: Vec::new(alloc),
        }
    }

    /// The number and the action of the operation that a line says, where the plan may have it beside its
    /// others.
    fn next_action(&self, line: &[u8]) -> Result<(u64, Action), PlanCode>
        ensures says { IfOk result (λ next. SaysOperation (words line.now) (made next.0 next.1)) }
        ensures rules { IfOk result (λ next. KeepsRules 4 (with_operation self.now (made next.0 next.1))) }
        ensures err { IfErr result (λ code. OnText code (BreaksLine self.now (words line.now) code)) }
        ensures memory { IfErr result (λ code. code ≢ PlanCode.Memory) }
    {
        let Some(wording) = worded_operation(line) else {
            return Err(PlanCode::Line);
        };
        if is_taken(&self.operations, wording.number) {
            return Err(PlanCode::Twice);
        }
        match check_action(self.layout, self.inodes, wording.action) {
            Ok(action) => Ok((wording.number, action)),
            Err(code) => Err(code),
        }
    }

    /// Adds the operation that a line says.
    pub(crate) fn add(&mut self, line: &[u8]) -> Result<(), PlanCode>
        ensures ok { OnOk result (AddsLine self.old (words line.now) self.new) }
        ensures err { IfErr result (λ code. OnText code (BreaksLine self.old (words line.now) code)) }
        ensures memory { IfErr result (λ code. code ≡ PlanCode.Memory → (next : PlanView) × AddsLine self.old (words line.now) next) }
    {
        let (number, action) = self.next_action(line)?;
        let operation = Operation { number, action };
        if self.operations.push(operation).is_err() {
            return Err(PlanCode::Memory);
        }
        Ok(())
    }

    /// The layout of the volume.
    pub fn layout(&self) -> Layout
        ensures { result ≡ self.now.layout }
    {
        self.layout
    }

    /// The number of inodes.
    pub fn inodes(&self) -> u32
        ensures { result ≡ self.now.inodes }
    {
        self.inodes
    }

    /// The number of pages.
    pub fn pages(&self) -> u32
        ensures { result ≡ self.now.pages }
    {
        self.pages
    }

    /// The number of journals.
    pub fn journals(&self) -> u32
        ensures { result ≡ self.now.journals }
    {
        self.journals
    }

    /// The operations, in the order of their lines. Their numbers differ, their inodes are there, and the
    /// layout allows their names.
    pub fn operations(&self) -> &[Operation]
        ensures value { result.now ≡ self.now.operations }
        ensures rules { KeepsRules 4 self.now }
    {
        &self.operations
    }
}
