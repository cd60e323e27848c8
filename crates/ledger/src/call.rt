// The eleven calls, with what each names. Numbers are as the caller gave them: the book judges them.
ghost use Rattle.std.specs.Prelude.{◌≡◌};
ghost use Rattle.ledger.specs.Calls.{call_number, call_name, kind_of, kind_name, CallKindOf};

use margin::number::UnknownNumber;

// The kinds of calls, by their numbers in a day file.
#[derive(Clone, Copy, Debug, PartialEq, Eq)]
pub enum CallKind {
    Deposit = 1,
    Withdraw = 2,
    SellOpen = 3,
    BuyOpen = 4,
    BuyClose = 5,
    SellClose = 6,
    LegClose = 7,
    Fill = 8,
    Cancel = 9,
    Combine = 10,
    Release = 11,
}

#[derive(Clone, Copy)]
pub enum Call {
    Deposit {
        amount: u64,
    },
    Withdraw {
        amount: u64,
    },
    SellOpen {
        account: u8,
        contract: u32,
        lots: u32,
        limit: u64,
    },
    BuyOpen {
        account: u8,
        contract: u32,
        lots: u32,
        limit: u64,
    },
    BuyClose {
        account: u8,
        contract: u32,
        lots: u32,
        limit: u64,
    },
    SellClose {
        account: u8,
        contract: u32,
        lots: u32,
        limit: u64,
    },
    LegClose {
        combination: u32,
        leg: u32,
        lots: u32,
        limit: u64,
    },
    Fill {
        order: u32,
        lots: u32,
        price: u64,
    },
    Cancel {
        order: u32,
    },
    Combine {
        account: u8,
        strategy: u8,
        first: u32,
        second: u32,
        lots: u32,
    },
    Release {
        combination: u32,
        lots: u32,
    },
}

impl TryFrom<u8> for CallKind {
    type Error = UnknownNumber;

    ghost try_from_gives = { CallKindOf };

    fn try_from(number: u8) -> Result<CallKind, UnknownNumber> {
        match number {
            1 => Ok(CallKind::Deposit),
            2 => Ok(CallKind::Withdraw),
            3 => Ok(CallKind::SellOpen),
            4 => Ok(CallKind::BuyOpen),
            5 => Ok(CallKind::BuyClose),
            6 => Ok(CallKind::SellClose),
            7 => Ok(CallKind::LegClose),
            8 => Ok(CallKind::Fill),
            9 => Ok(CallKind::Cancel),
            10 => Ok(CallKind::Combine),
            11 => Ok(CallKind::Release),
            _ => Err(UnknownNumber(number)),
        }
    }
}

impl CallKind {
    // The kind's name, as a report has it: a table of texts, which a line's `Display` writes, and one of its own would be no plainer.
    pub fn name(self) -> &'static str
        ensures { result.now ≡ kind_name self }
    {
        match self {
            CallKind::Deposit => "deposit",
            CallKind::Withdraw => "withdraw",
            CallKind::SellOpen => "sell-open",
            CallKind::BuyOpen => "buy-open",
            CallKind::BuyClose => "buy-close",
            CallKind::SellClose => "sell-close",
            CallKind::LegClose => "leg-close",
            CallKind::Fill => "fill",
            CallKind::Cancel => "cancel",
            CallKind::Combine => "combine",
            CallKind::Release => "release",
        }
    }
}

impl Call {
    pub fn kind(&self) -> CallKind
        ensures { result ≡ kind_of self.now }
    {
        match self {
            Call::Deposit { .. } => CallKind::Deposit,
            Call::Withdraw { .. } => CallKind::Withdraw,
            Call::SellOpen { .. } => CallKind::SellOpen,
            Call::BuyOpen { .. } => CallKind::BuyOpen,
            Call::BuyClose { .. } => CallKind::BuyClose,
            Call::SellClose { .. } => CallKind::SellClose,
            Call::LegClose { .. } => CallKind::LegClose,
            Call::Fill { .. } => CallKind::Fill,
            Call::Cancel { .. } => CallKind::Cancel,
            Call::Combine { .. } => CallKind::Combine,
            Call::Release { .. } => CallKind::Release,
        }
    }

    // The call's number, as a day file has it: a cast under its name, since `u8::from` would be no plainer.
    pub fn number(&self) -> u8
        ensures { result ≡ call_number self.now }
    {
        self.kind() as u8
    }

    // The call's name, as a report has it.
    pub fn name(&self) -> &'static str
        ensures { result.now ≡ call_name self.now }
    {
        self.kind().name()
    }
}
