// The lines of a report. Amounts are in hao.
use ledger::call::Call;
use ledger::refusal::Refusal;

// The day, how many contracts are listed, and the opening balance.
#[derive(Clone, Copy)]
pub struct OpeningLine {
    pub day: u16,
    pub contracts: usize,
    pub balance: u64,
}

// A call at its place in the file from 1, the number that it gave (0 where it gives none) or its refusal, and the balance after it.
#[derive(Clone, Copy)]
pub struct CallLine {
    pub place: usize,
    pub call: Call,
    pub outcome: Result<u32, Refusal>,
    pub balance: u64,
}

// The funds after the last call.
#[derive(Clone, Copy)]
pub struct EndLine {
    pub balance: u64,
    pub held: u64,
    pub reserves: u64,
    pub cash: u64,
}

#[derive(Drop)]
pub struct Report {
    pub opening: OpeningLine,
    pub calls: Vec<CallLine>,
    pub end: EndLine,
}
