// Opcodes, statuses and refusals, by the numbers of documents 01 and 02.
ghost use Rattle.std.specs.Prelude.{◌≡◌};
ghost use Rattle.machine.specs.Outcomes.{refusal_number, status_number, DecodesStatus, DecodesOpcode};

// The first check that said no.
#[derive(Clone, Copy, PartialEq, Eq)]
pub enum Refusal {
    Opcode = 1,
    Length = 2,
    Clock = 3,
    Channel = 4,
    Status = 5,
    Keys = 6,
    Delay = 7,
    Amounts = 8,
    Deadline = 9,
    Secret = 10,
    MerchantSignature = 11,
    CustomerSignature = 12,
    DefaultDelay = 14,
    Leaf = 16,
    Fee = 20,
    Date = 21,
    Dates = 22,
    Book = 99,
}

impl From<Refusal> for u32 {
    ghost from_gives = { λ refusal number. number ≡ refusal_number refusal };

    fn from(refusal: Refusal) -> u32 {
        refusal as u32
    }
}

// Where a channel stands.
#[derive(Clone, Copy, PartialEq, Eq)]
pub enum Status {
    Unused = 0,
    AwaitingCustomer = 1,
    AwaitingMerchant = 2,
    Open = 3,
    MerchantClosing = 4,
    CustomerClosing = 5,
    Closed = 6,
}

impl From<Status> for u32 {
    ghost from_gives = { λ status number. number ≡ status_number status };

    fn from(status: Status) -> u32 {
        status as u32
    }
}

impl TryFrom<u32> for Status {
    type Error = Refusal;

    ghost try_from_gives = { DecodesStatus };

    fn try_from(number: u32) -> Result<Self, Refusal> {
        match number {
            0 => Ok(Status::Unused),
            1 => Ok(Status::AwaitingCustomer),
            2 => Ok(Status::AwaitingMerchant),
            3 => Ok(Status::Open),
            4 => Ok(Status::MerchantClosing),
            5 => Ok(Status::CustomerClosing),
            6 => Ok(Status::Closed),
            _ => Err(Refusal::Status),
        }
    }
}

// A command, by its first byte.
#[derive(Clone, Copy, PartialEq, Eq)]
pub enum Opcode {
    Clock = 1,
    Establish = 2,
    FundCustomer = 3,
    FundMerchant = 4,
    Reclaim = 5,
    MutualClose = 6,
    CustomerClose = 7,
    MerchantClose = 8,
    Dispute = 9,
    Settle = 10,
}

impl TryFrom<u8> for Opcode {
    type Error = Refusal;

    ghost try_from_gives = { DecodesOpcode };

    fn try_from(byte: u8) -> Result<Self, Refusal> {
        match byte {
            1 => Ok(Opcode::Clock),
            2 => Ok(Opcode::Establish),
            3 => Ok(Opcode::FundCustomer),
            4 => Ok(Opcode::FundMerchant),
            5 => Ok(Opcode::Reclaim),
            6 => Ok(Opcode::MutualClose),
            7 => Ok(Opcode::CustomerClose),
            8 => Ok(Opcode::MerchantClose),
            9 => Ok(Opcode::Dispute),
            10 => Ok(Opcode::Settle),
            _ => Err(Refusal::Opcode),
        }
    }
}
