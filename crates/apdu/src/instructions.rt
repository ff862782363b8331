// Step 2: the class and the instruction.
ghost use Rattle.std.specs.Prelude.{◌≡◌};
ghost use Rattle.apdu.specs.Instructions.{instruction};

use crate::refusals::Refusal;

// The commands that carry no C-MAC, or, as EXTERNAL AUTHENTICATE, have a rule of their own for it.
#[derive(Clone, Copy, Debug, PartialEq, Eq)]
pub enum Plain {
    Select,
    InitializeUpdate,
    ExternalAuthenticate,
    VerifyPin,
    GetData,
    ReadRecord,
}

// The commands whose data end in a C-MAC.
#[derive(Clone, Copy, Debug, PartialEq, Eq)]
pub enum Signed {
    PutKey,
    PinChange,
    StoreData,
    InitializeTransaction,
    CompleteTransaction,
    PutData,
}

// Two enums of six, not one of twelve: past step 5 the two kinds have functions of their own, each of which would have six arms that never come.
#[derive(Clone, Copy, Debug, PartialEq, Eq)]
pub enum Instruction {
    IsPlain(Plain),
    IsSigned(Signed),
}

// The instruction of a class byte and an instruction byte.
#[tactic(auto, unfolding(crate::specs::Instructions::instruction, crate::specs::Instructions::of00, crate::specs::Instructions::of80, crate::specs::Instructions::of84, crate::specs::Instructions::of94))]
pub fn classify(cla: u8, ins: u8) -> Result<Instruction, Refusal>
    ensures { result ≡ instruction cla ins }
{
    match (cla, ins) {
        (0x00, 0xA4) => Ok(Instruction::IsPlain(Plain::Select)),
        (0x00, 0xB2) => Ok(Instruction::IsPlain(Plain::ReadRecord)),
        (0x80, 0x50) => Ok(Instruction::IsPlain(Plain::InitializeUpdate)),
        (0x80, 0xCA) => Ok(Instruction::IsPlain(Plain::GetData)),
        (0x84, 0x82) => Ok(Instruction::IsPlain(Plain::ExternalAuthenticate)),
        (0x84, 0xD8) => Ok(Instruction::IsSigned(Signed::PutKey)),
        (0x84, 0x24) => Ok(Instruction::IsSigned(Signed::PinChange)),
        (0x84, 0xE2) => Ok(Instruction::IsSigned(Signed::StoreData)),
        (0x84, 0xDA) => Ok(Instruction::IsSigned(Signed::PutData)),
        (0x94, 0x20) => Ok(Instruction::IsPlain(Plain::VerifyPin)),
        (0x94, 0x44) => Ok(Instruction::IsSigned(Signed::InitializeTransaction)),
        (0x94, 0x46) => Ok(Instruction::IsSigned(Signed::CompleteTransaction)),
        (0x00 | 0x80 | 0x84 | 0x94, _) => Err(Refusal::UnknownInstruction),
        _ => Err(Refusal::UnknownClass),
    }
}
