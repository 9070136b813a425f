//! Which requests lead to a state.

ghost use Rattle.std.specs.Prelude.{◌≡◌, ◌<◌, IfOk, IfSome};
ghost use Rattle.schedule_states.specs.Leads.{AreOfHarts};

use std::alloc::{AllocError, Global};
use std::marker::Model;

/// What first led to a state: from the state of this number the next request of a hart.
#[derive(Clone, Copy, Debug, PartialEq, Eq)]
pub struct Lead {
    pub from: u32,
    pub hart: u32,
}

/// How many harts there are, and what first led to each state but that of the start. A contract sees how many harts there are.
#[derive(Drop)]
pub struct Leads {
    harts: u32,
    leads: Vec<Lead>,
}

impl Model for Leads {
    ghost use Rattle.std.specs.Prelude.{ℕ};
    ghost use Rattle.schedule_states.specs.Leads.{AreLeads};

    ghost Value = { ℕ };

    ghost view = { λ l. l.harts };

    ghost invariant = { λ l. AreLeads l.harts l.leads.items };
}

impl Leads {
    /// Those of so many harts, where no state was met yet.
    pub fn new(alloc: Global, harts: u32) -> Leads
        ensures { result ≡ harts }
    {
        Leads {
            harts,
            leads: Vec::new(alloc),
        }
    }

    pub fn harts(&self) -> u32
        ensures { result ≡ self.now }
    {
        self.harts
    }

    /// Notes what led to the last of so many states, unless that was met before.
    pub fn note(&mut self, states: usize, lead: Lead) -> Result<(), AllocError>
        requires { lead.hart < self.old }
        ensures { self.new ≡ self.old }
    {
        if states > self.leads.len() + 1 {
            self.leads.push(lead)?;
        }
        Ok(())
    }

    /// The harts whose requests first led to the state of a number, in order.
    pub fn requests_to(&self, alloc: Global, number: u32) -> Result<Vec<u32>, AllocError>
        ensures { IfOk result (λ requests. AreOfHarts self.now requests.items) }
    {
        let mut requests = Vec::new(alloc);
        let mut at = number;
        while let Some(lead) = self.lead_to(at) {
            requests.push(lead.hart)?;
            at = lead.from;
        }
        requests.reverse();
        Ok(requests)
    }

    /// What first led to the state of a number; None at the start.
    fn lead_to(&self, number: u32) -> Option<Lead>
        ensures hart { IfSome result (λ lead. lead.hart < self.now) }
        ensures earlier { IfSome result (λ lead. lead.from < number) }
    {
        if number == 0 {
            return None;
        }
        let lead = *self.leads.get(number as usize - 1)?;
        if lead.from < number { Some(lead) } else { None }
    }
}
