ghost use Rattle.std.specs.Prelude.{◌≡◌};
ghost use Rattle.host_registers.specs.Registers.{register_numbered, is_known, limit_of};

use records::FirmwareRegister;

// The register of a number. No From: it would have to stand in records, and these numbers are those of `register_numbered`, of these calls.
#[tactic(auto, unfolding(crate::specs::Registers::register_numbered))]
pub(crate) fn numbered(number: u64) -> FirmwareRegister
    ensures { result ≡ register_numbered number }
{
    match number {
        0 => FirmwareRegister::Std,
        1 => FirmwareRegister::StdHyp,
        2 => FirmwareRegister::VendorHyp,
        _ => FirmwareRegister::Unknown,
    }
}

pub(crate) fn is_known(register: FirmwareRegister) -> bool
    ensures { result ≡ is_known register }
{
    !matches!(register, FirmwareRegister::Unknown)
}

// The bits that may be set.
pub(crate) fn limit(register: FirmwareRegister) -> u64
    ensures { result ≡ limit_of register }
{
    match register {
        FirmwareRegister::VendorHyp => 1,
        FirmwareRegister::Std | FirmwareRegister::StdHyp | FirmwareRegister::Unknown => 0,
    }
}
