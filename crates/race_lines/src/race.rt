use participants::Participant;
use requests::Request;

/// A request of a caller.
#[derive(Clone, Copy)]
pub struct Sent {
    pub caller: u64,
    /// The place of the caller among those who race.
    pub participant: usize,
    /// Which of its requests it is, from 0.
    pub index: usize,
}

/// Who races for a store, as a text has it. The lists `participants`, `callers` and `lines` have the same length: each
/// has something for each who races.
#[derive(Drop)]
pub struct WrittenRace {
    /// How many revisions the store may draw.
    pub capacity: u64,
    /// Requests that are handled in this order before the race.
    pub beginning: Vec<Request>,
    /// Those who race, in the order in which the text first names them.
    pub participants: Vec<Participant>,
    /// The number of each that is a caller.
    pub callers: Vec<Option<u64>>,
    /// The lines of each, from 0 for the line behind the first one: of a caller one for each of its requests, of the
    /// others one.
    pub lines: Vec<Vec<usize>>,
    /// The requests of callers, in the order of the text.
    pub sent: Vec<Sent>,
    /// How many lines were read behind the first one.
    pub read: usize,
}
