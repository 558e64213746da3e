//! The numbers of faults.

ghost use Rattle.std.specs.Prelude.{◌≡◌};
ghost use Rattle.klog_c.specs.Numbers as definitions;

pub(crate) use c_outcomes::{OK, RANGE};
use machine_spec::IsaFault;
use program_file::FileFault;
use rules::RuleFault;
use rules_compiler::CompileFault;
use transform::Stop;
use verifier_spec::{Check, LoadFault, VerifyFault};
use wire_spec::BatchFault;

/// Memory ran out.
pub(crate) const MEMORY: u32 = 1;

/// A handle is of nothing, or of another kind than the call needs.
pub(crate) const KIND: u32 = 2;

/// A key or a value is longer than a record's may be.
pub(crate) const LENGTH: u32 = 4;

/// The offsets of records are used up.
pub(crate) const FULL: u32 = 7;

/// A header's key is not UTF-8.
pub(crate) const TEXT: u32 = 8;

/// The rows take more bytes than the caller's limit.
pub(crate) const LIMIT: u32 = 9;

/// The number of a fault of an image, and the slot that it is about; 0 where it is about none.
fn isa_told(fault: IsaFault) -> (u32, usize)
    ensures { result ≡ (definitions.isa_number fault, definitions.isa_place fault) }
{
    match fault {
        IsaFault::Size => (101, 0),
        IsaFault::Opcode(slot) => (102, slot),
        IsaFault::Register(slot) => (103, slot),
        IsaFault::Unused(slot) => (104, slot),
        IsaFault::Wide(slot) => (105, slot),
        IsaFault::NotInProfile(slot) => (106, slot),
        IsaFault::Memory => (MEMORY, 0),
    }
}

fn check_number(check: Check) -> u32
    ensures { result ≡ definitions.check_number check }
{
    match check {
        Check::JumpTarget => 201,
        Check::BackJump => 202,
        Check::RunsOff => 203,
        Check::Unset => 204,
        Check::WrongType => 205,
        Check::Frame => 206,
        Check::RecordBounds => 207,
        Check::StackBounds => 208,
        Check::StackUnset => 209,
        Check::ReadOnly => 210,
        Check::Helper => 211,
        Check::HelperArg => 212,
        Check::Exit => 213,
        Check::Memory => MEMORY,
        Check::Notes => 215,
    }
}

/// The number of a fault of a program file: G1 to G4 are 401 to 404.
pub(crate) fn file_number(fault: FileFault) -> u32
    ensures { result ≡ definitions.file_number fault }
{
    match fault {
        FileFault::Short => 401,
        FileFault::Version => 402,
        FileFault::Table => 403,
        FileFault::Lines => 404,
        FileFault::Memory => MEMORY,
    }
}

/// The number of a fault of a line of rules: E1 to E7 are 501 to 507.
pub(crate) fn rule_number(fault: RuleFault) -> u32
    ensures { result ≡ definitions.rule_number fault }
{
    match fault {
        RuleFault::Word(_) => 501,
        RuleFault::Number(_) => 502,
        RuleFault::Text(_) => 503,
        RuleFault::Long(_) => 504,
        RuleFault::Deep(_) => 505,
        RuleFault::Many(_) => 506,
        RuleFault::End(_) => 507,
        RuleFault::Memory => MEMORY,
    }
}

/// The number of a fault of rules that are not compiled, and the rule that it is about; 0 where it is about none. E9 is
/// 509.
pub(crate) fn compile_told(fault: CompileFault) -> (u32, usize)
    ensures { result ≡ definitions.compile_told fault }
{
    match fault {
        CompileFault::Slots(rule) => (509, rule),
        CompileFault::Memory => (MEMORY, 0),
    }
}

/// The number of a refusal, and the slot or the instruction that it is about; 0 where it is about
/// none. I1 to I6 are 101 to 106, V1 to V13 are 201 to 213.
pub(crate) fn refusal_told(fault: LoadFault) -> (u32, usize)
    ensures { result ≡ (definitions.fault_number fault, definitions.fault_place fault) }
{
    match fault {
        LoadFault::Isa(fault) => isa_told(fault),
        LoadFault::Verify(VerifyFault { pc, kind }) => (check_number(kind), pc),
    }
}

/// The number of a fault of a batch, and the record that it is about; 0 where it is about none.
fn batch_told(fault: BatchFault) -> (u32, u32)
    ensures { result ≡ (definitions.batch_number fault, definitions.batch_record fault) }
{
    match fault {
        BatchFault::Short => (301, 0),
        BatchFault::Length => (302, 0),
        BatchFault::TooLarge => (303, 0),
        BatchFault::Magic => (304, 0),
        BatchFault::Crc => (305, 0),
        BatchFault::Attributes => (306, 0),
        BatchFault::Count => (307, 0),
        BatchFault::Record(place) => (308, place),
        BatchFault::Timestamp => (309, 0),
        BatchFault::Memory => (MEMORY, 0),
    }
}

/// The number of what stops a transform, and the record of its batch that it is about; 0 where it is
/// about none. B1 to B9 are 301 to 309.
pub(crate) fn stop_told(stop: Stop) -> (u32, u32)
    ensures { result ≡ (definitions.stop_number stop, definitions.stop_record stop) }
{
    match stop {
        Stop::Batch(fault) => batch_told(fault),
        Stop::Full => (FULL, 0),
        Stop::Limit => (LIMIT, 0),
        Stop::Memory => (MEMORY, 0),
    }
}
