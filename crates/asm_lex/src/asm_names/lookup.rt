//! Mnemonics, pseudo-instructions and directives by their names.
//!
//! Source: RISC-V Unprivileged ISA 20191213, chapters 24 and 25; CMO 1.0 for `cbo`.

ghost use Rattle.asm_lex.specs.Mnemonics.{mnemonic_of, operation_of, computation_of, transfer_of};
ghost use Rattle.asm_lex.specs.Mnemonics.{special_of, pseudo_of, single_of, directive_of};
ghost use Rattle.asm_lex.specs.Mnemonics.{upper_of, branch_of, load_of, store_of, immediate_of};
ghost use Rattle.asm_lex.specs.Mnemonics.{shift_of};
ghost use Rattle.asm_lex.specs.Mnemonics.{register_op_of, cache_of, system_of, atomic_of, form_of};
ghost use Rattle.asm_lex.specs.Mnemonics.{formed};
ghost use Rattle.asm_lex.specs.Mnemonics.{atomic_mnemonic_of, unary_of, zero_branch_of};
ghost use Rattle.asm_lex.specs.Mnemonics.{exchanged_branch_of, up_to_dot};
ghost use Rattle.std.specs.Prelude.{◌≡◌, ◌≤◌, length};

use crate::asm_names::kinds::{NumberWidth, Section};
use crate::asm_names::mnemonic::{AtomicForm, ExchangedBranchOp, Mnemonic, UnaryOp, ZeroBranchOp};
use crate::asm_names::tables::named;
use isa_table::{
    AtomicOp, AtomicWidth, BranchOp, CacheOp, ImmediateOp, LoadOp, RegisterOp, ShiftOp, StoreOp,
    SystemOp, UpperOp,
};

/// The statement that a name begins.
#[inline(always)]
#[tactic(auto, using(crate::proofs::Directives::dotted))]
pub fn mnemonic_of(text: &[u8]) -> Option<Mnemonic>
    ensures { result ≡ mnemonic_of text.now }
{
    match text {
        // Each directive begins with a dot, and nothing else does.
        [b'.', ..] => directive_of(text),
        _ => listed(text),
    }
}

/// The statement that a name begins, by all tables in turn.
#[tactic(auto, unfolding(crate::specs::Mnemonics::mnemonic_of))]
fn listed(text: &[u8]) -> Option<Mnemonic>
    ensures { result ≡ mnemonic_of text.now }
{
    operation_of(text)
        .or_else(|| single_of(text))
        .or_else(|| pseudo_of(text))
        .or_else(|| directive_of(text))
        .or_else(|| atomic_mnemonic_of(text))
}

/// The mnemonics of families.
#[tactic(auto, unfolding(crate::specs::Mnemonics::operation_of))]
fn operation_of(text: &[u8]) -> Option<Mnemonic>
    ensures { result ≡ operation_of text.now }
{
    computation_of(text)
        .or_else(|| transfer_of(text))
        .or_else(|| special_of(text))
}

#[tactic(auto, unfolding(crate::specs::Mnemonics::computation_of))]
fn computation_of(text: &[u8]) -> Option<Mnemonic>
    ensures { result ≡ computation_of text.now }
{
    register_op_of(text)
        .map(Mnemonic::Register)
        .or_else(|| immediate_of(text).map(Mnemonic::Immediate))
        .or_else(|| shift_of(text).map(Mnemonic::Shift))
}

#[tactic(auto, unfolding(crate::specs::Mnemonics::transfer_of))]
fn transfer_of(text: &[u8]) -> Option<Mnemonic>
    ensures { result ≡ transfer_of text.now }
{
    branch_of(text)
        .map(Mnemonic::Branch)
        .or_else(|| load_of(text).map(Mnemonic::Load))
        .or_else(|| store_of(text).map(Mnemonic::Store))
}

#[tactic(auto, unfolding(crate::specs::Mnemonics::special_of))]
fn special_of(text: &[u8]) -> Option<Mnemonic>
    ensures { result ≡ special_of text.now }
{
    upper_of(text)
        .map(Mnemonic::Upper)
        .or_else(|| cache_of(text).map(Mnemonic::Cache))
        .or_else(|| system_of(text).map(Mnemonic::System))
}

/// The pseudo-instructions of families.
#[tactic(auto, unfolding(crate::specs::Mnemonics::pseudo_of))]
fn pseudo_of(text: &[u8]) -> Option<Mnemonic>
    ensures { result ≡ pseudo_of text.now }
{
    unary_of(text)
        .map(Mnemonic::Unary)
        .or_else(|| zero_branch_of(text).map(Mnemonic::ZeroBranch))
        .or_else(|| exchanged_branch_of(text).map(Mnemonic::ExchangedBranch))
}

static SINGLES: [(&[u8], Mnemonic); 10] = [
    (b"jal", Mnemonic::Jump),
    (b"jalr", Mnemonic::JumpRegister),
    (b"fence", Mnemonic::Fence),
    (b"fence.i", Mnemonic::FenceI),
    (b"nop", Mnemonic::Nop),
    (b"ret", Mnemonic::Return),
    (b"j", Mnemonic::PlainJump),
    (b"jr", Mnemonic::PlainJumpRegister),
    (b"li", Mnemonic::LoadNumber),
    (b"la", Mnemonic::LoadAddress),
];

/// The mnemonics and pseudo-instructions with a shape of their own.
#[tactic(auto, unfolding(crate::specs::Mnemonics::single_of))]
fn single_of(text: &[u8]) -> Option<Mnemonic>
    ensures { result ≡ single_of text.now }
{
    named(&SINGLES, text)
}

#[inline(always)]
#[tactic(auto, unfolding(crate::specs::Mnemonics::directive_of))]
fn directive_of(text: &[u8]) -> Option<Mnemonic>
    ensures { result ≡ directive_of text.now }
{
    match text {
        b".text" => Some(Mnemonic::Section(Section::Text)),
        b".data" => Some(Mnemonic::Section(Section::Data)),
        b".byte" => Some(Mnemonic::Numbers(NumberWidth::Byte)),
        b".half" => Some(Mnemonic::Numbers(NumberWidth::Half)),
        b".word" => Some(Mnemonic::Numbers(NumberWidth::Word)),
        b".dword" => Some(Mnemonic::Numbers(NumberWidth::Doubleword)),
        b".zero" => Some(Mnemonic::Zeros),
        b".balign" => Some(Mnemonic::Align),
        _ => None,
    }
}

/// How many bytes stand before the first dot.
fn up_to_dot(text: &[u8]) -> usize
    ensures in_range { result ≤ length text.now }
    ensures value { result ≡ up_to_dot text.now }
{
    text.iter().take_while(|byte| **byte != b'.').count()
}

/// The atomic instructions: a name up to the first dot, and then a width and an ordering.
#[tactic(auto, unfolding(crate::specs::Mnemonics::atomic_mnemonic_of))]
fn atomic_mnemonic_of(text: &[u8]) -> Option<Mnemonic>
    ensures { result ≡ atomic_mnemonic_of text.now }
{
    let (stem, suffix) = text.split_at(up_to_dot(text));
    formed(stem, form_of(suffix)?)
}

/// The atomic instruction of a name and a form.
fn formed(stem: &[u8], form: AtomicForm) -> Option<Mnemonic>
    ensures { result ≡ formed stem.now form }
{
    match stem {
        b"lr" => Some(Mnemonic::LoadReserved(form)),
        _ => Some(Mnemonic::Atomic(atomic_of(stem)?, form)),
    }
}

/// A form, by its width and whether it acquires and releases.
macro_rules! form {
    ($width:ident, $acquire:expr, $release:expr) => {
        AtomicForm {
            width: AtomicWidth::$width,
            acquire: $acquire,
            release: $release,
        }
    };
}

static FORMS: [(&[u8], AtomicForm); 8] = [
    (b".w", form!(Word, false, false)),
    (b".w.aq", form!(Word, true, false)),
    (b".w.rl", form!(Word, false, true)),
    (b".w.aqrl", form!(Word, true, true)),
    (b".d", form!(Doubleword, false, false)),
    (b".d.aq", form!(Doubleword, true, false)),
    (b".d.rl", form!(Doubleword, false, true)),
    (b".d.aqrl", form!(Doubleword, true, true)),
];

/// The width and the ordering at the end of an atomic instruction's name.
#[tactic(auto, unfolding(crate::specs::Mnemonics::form_of))]
fn form_of(suffix: &[u8]) -> Option<AtomicForm>
    ensures { result ≡ form_of suffix.now }
{
    named(&FORMS, suffix)
}

static UPPERS: [(&[u8], UpperOp); 2] = [(b"lui", UpperOp::Lui), (b"auipc", UpperOp::Auipc)];

#[tactic(auto, unfolding(crate::specs::Mnemonics::upper_of))]
fn upper_of(text: &[u8]) -> Option<UpperOp>
    ensures { result ≡ upper_of text.now }
{
    named(&UPPERS, text)
}

static BRANCHES: [(&[u8], BranchOp); 6] = [
    (b"beq", BranchOp::Beq),
    (b"bne", BranchOp::Bne),
    (b"blt", BranchOp::Blt),
    (b"bge", BranchOp::Bge),
    (b"bltu", BranchOp::Bltu),
    (b"bgeu", BranchOp::Bgeu),
];

#[tactic(auto, unfolding(crate::specs::Mnemonics::branch_of))]
fn branch_of(text: &[u8]) -> Option<BranchOp>
    ensures { result ≡ branch_of text.now }
{
    named(&BRANCHES, text)
}

static LOADS: [(&[u8], LoadOp); 7] = [
    (b"lb", LoadOp::Lb),
    (b"lh", LoadOp::Lh),
    (b"lw", LoadOp::Lw),
    (b"ld", LoadOp::Ld),
    (b"lbu", LoadOp::Lbu),
    (b"lhu", LoadOp::Lhu),
    (b"lwu", LoadOp::Lwu),
];

#[tactic(auto, unfolding(crate::specs::Mnemonics::load_of))]
fn load_of(text: &[u8]) -> Option<LoadOp>
    ensures { result ≡ load_of text.now }
{
    named(&LOADS, text)
}

static STORES: [(&[u8], StoreOp); 4] = [
    (b"sb", StoreOp::Sb),
    (b"sh", StoreOp::Sh),
    (b"sw", StoreOp::Sw),
    (b"sd", StoreOp::Sd),
];

#[tactic(auto, unfolding(crate::specs::Mnemonics::store_of))]
fn store_of(text: &[u8]) -> Option<StoreOp>
    ensures { result ≡ store_of text.now }
{
    named(&STORES, text)
}

static IMMEDIATES: [(&[u8], ImmediateOp); 7] = [
    (b"addi", ImmediateOp::Addi),
    (b"slti", ImmediateOp::Slti),
    (b"sltiu", ImmediateOp::Sltiu),
    (b"xori", ImmediateOp::Xori),
    (b"ori", ImmediateOp::Ori),
    (b"andi", ImmediateOp::Andi),
    (b"addiw", ImmediateOp::Addiw),
];

#[tactic(auto, unfolding(crate::specs::Mnemonics::immediate_of))]
fn immediate_of(text: &[u8]) -> Option<ImmediateOp>
    ensures { result ≡ immediate_of text.now }
{
    named(&IMMEDIATES, text)
}

static SHIFTS: [(&[u8], ShiftOp); 6] = [
    (b"slli", ShiftOp::Slli),
    (b"srli", ShiftOp::Srli),
    (b"srai", ShiftOp::Srai),
    (b"slliw", ShiftOp::Slliw),
    (b"srliw", ShiftOp::Srliw),
    (b"sraiw", ShiftOp::Sraiw),
];

#[tactic(auto, unfolding(crate::specs::Mnemonics::shift_of))]
fn shift_of(text: &[u8]) -> Option<ShiftOp>
    ensures { result ≡ shift_of text.now }
{
    named(&SHIFTS, text)
}

static REGISTERS: [(&[u8], RegisterOp); 15] = [
    (b"add", RegisterOp::Add),
    (b"sub", RegisterOp::Sub),
    (b"sll", RegisterOp::Sll),
    (b"slt", RegisterOp::Slt),
    (b"sltu", RegisterOp::Sltu),
    (b"xor", RegisterOp::Xor),
    (b"srl", RegisterOp::Srl),
    (b"sra", RegisterOp::Sra),
    (b"or", RegisterOp::Or),
    (b"and", RegisterOp::And),
    (b"addw", RegisterOp::Addw),
    (b"subw", RegisterOp::Subw),
    (b"sllw", RegisterOp::Sllw),
    (b"srlw", RegisterOp::Srlw),
    (b"sraw", RegisterOp::Sraw),
];

#[tactic(auto, unfolding(crate::specs::Mnemonics::register_op_of))]
fn register_op_of(text: &[u8]) -> Option<RegisterOp>
    ensures { result ≡ register_op_of text.now }
{
    named(&REGISTERS, text)
}

static CACHES: [(&[u8], CacheOp); 3] = [
    (b"cbo.inval", CacheOp::Inval),
    (b"cbo.clean", CacheOp::Clean),
    (b"cbo.flush", CacheOp::Flush),
];

#[tactic(auto, unfolding(crate::specs::Mnemonics::cache_of))]
fn cache_of(text: &[u8]) -> Option<CacheOp>
    ensures { result ≡ cache_of text.now }
{
    named(&CACHES, text)
}

static SYSTEMS: [(&[u8], SystemOp); 2] = [
    (b"ecall", SystemOp::Ecall),
    (b"ebreak", SystemOp::Ebreak),
];

#[tactic(auto, unfolding(crate::specs::Mnemonics::system_of))]
fn system_of(text: &[u8]) -> Option<SystemOp>
    ensures { result ≡ system_of text.now }
{
    named(&SYSTEMS, text)
}

static ATOMICS: [(&[u8], AtomicOp); 10] = [
    (b"sc", AtomicOp::Sc),
    (b"amoswap", AtomicOp::Amoswap),
    (b"amoadd", AtomicOp::Amoadd),
    (b"amoxor", AtomicOp::Amoxor),
    (b"amoand", AtomicOp::Amoand),
    (b"amoor", AtomicOp::Amoor),
    (b"amomin", AtomicOp::Amomin),
    (b"amomax", AtomicOp::Amomax),
    (b"amominu", AtomicOp::Amominu),
    (b"amomaxu", AtomicOp::Amomaxu),
];

/// The atomic instruction of a name without its width and its ordering.
#[tactic(auto, unfolding(crate::specs::Mnemonics::atomic_of))]
fn atomic_of(text: &[u8]) -> Option<AtomicOp>
    ensures { result ≡ atomic_of text.now }
{
    named(&ATOMICS, text)
}

static UNARIES: [(&[u8], UnaryOp); 9] = [
    (b"mv", UnaryOp::Mv),
    (b"not", UnaryOp::Not),
    (b"neg", UnaryOp::Neg),
    (b"negw", UnaryOp::Negw),
    (b"sext.w", UnaryOp::SextW),
    (b"seqz", UnaryOp::Seqz),
    (b"snez", UnaryOp::Snez),
    (b"sltz", UnaryOp::Sltz),
    (b"sgtz", UnaryOp::Sgtz),
];

#[tactic(auto, unfolding(crate::specs::Mnemonics::unary_of))]
fn unary_of(text: &[u8]) -> Option<UnaryOp>
    ensures { result ≡ unary_of text.now }
{
    named(&UNARIES, text)
}

static ZERO_BRANCHES: [(&[u8], ZeroBranchOp); 6] = [
    (b"beqz", ZeroBranchOp::Beqz),
    (b"bnez", ZeroBranchOp::Bnez),
    (b"blez", ZeroBranchOp::Blez),
    (b"bgez", ZeroBranchOp::Bgez),
    (b"bltz", ZeroBranchOp::Bltz),
    (b"bgtz", ZeroBranchOp::Bgtz),
];

#[tactic(auto, unfolding(crate::specs::Mnemonics::zero_branch_of))]
fn zero_branch_of(text: &[u8]) -> Option<ZeroBranchOp>
    ensures { result ≡ zero_branch_of text.now }
{
    named(&ZERO_BRANCHES, text)
}

static EXCHANGED_BRANCHES: [(&[u8], ExchangedBranchOp); 4] = [
    (b"bgt", ExchangedBranchOp::Bgt),
    (b"ble", ExchangedBranchOp::Ble),
    (b"bgtu", ExchangedBranchOp::Bgtu),
    (b"bleu", ExchangedBranchOp::Bleu),
];

#[tactic(auto, unfolding(crate::specs::Mnemonics::exchanged_branch_of))]
fn exchanged_branch_of(text: &[u8]) -> Option<ExchangedBranchOp>
    ensures { result ≡ exchanged_branch_of text.now }
{
    named(&EXCHANGED_BRANCHES, text)
}
