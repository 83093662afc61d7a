// The input of planroot, passed piece by piece. Paper 01, section Known plans.
#![tactic(auto)]

ghost use Rattle.std.specs.Prelude.{◌≡◌, true, [], ◌∷◌, ◌-◌, ◌*◌, ◌+◌, ◌≤◌, ◌<◌, length, SomeIff};
ghost use Rattle.text_tokens.specs.Tokens.{is_digit};
ghost use Rattle.planroot_input.specs.inner.Words.{AddsByte, JudgesWord};
ghost use Rattle.planroot_input.specs.inner.Scans.{InputRoom, Starts, placed, EndsWord, PassesFirst, PassesSecond, PassesText, PassesPiece, DecidesLine, Closes};

// A word so far: nothing, the digit run 0, another number, or no beginning of a digit run.
#[derive(Clone, Copy)]
pub enum Word {
    Empty,
    Zero,
    Number(u64),
    NoRun,
}

// The digit that a byte shows.
fn digit(b: u8) -> Option<u64>
    ensures { SomeIff result (is_digit b ≡ true) (b - 48) }
{
    match b {
        b'0'..=b'9' => Some(u64::from(b - b'0')),
        _ => None,
    }
}

// The number with one digit more, below 2^64.
fn longer(n: u64, d: u64) -> Option<u64>
    ensures { SomeIff result (10 * n + d < 18446744073709551616) (10 * n + d) }
{
    n.checked_mul(10)?.checked_add(d)
}

impl Word {
    // The word with one byte more.
    pub fn add_byte(self, b: u8) -> Word
        ensures { AddsByte self b result }
    {
        let Some(d) = digit(b) else {
            return Word::NoRun;
        };
        match self {
            Word::Empty if d == 0 => Word::Zero,
            Word::Empty => Word::Number(d),
            Word::Number(n) => match longer(n, d) {
                Some(n) => Word::Number(n),
                None => Word::NoRun,
            },
            Word::Zero | Word::NoRun => Word::NoRun,
        }
    }

    // The number of the digit run that the word is.
    pub fn run(self) -> Option<u64>
        ensures { JudgesWord self result }
    {
        match self {
            Word::Zero => Some(0),
            Word::Number(n) => Some(n),
            Word::Empty | Word::NoRun => None,
        }
    }
}

// Where the next byte stands.
#[derive(Clone, Copy)]
pub enum Phase {
    FirstLine,
    SecondLine,
    Text,
}

// How far the input is passed; whether the words that ended are digit runs; the word that has not ended; u; how many masks and
// bytes of the text are gathered.
#[derive(Clone, Copy)]
pub struct Scan {
    pub phase: Phase,
    pub ok: bool,
    pub word: Word,
    pub ports: u64,
    pub masks: usize,
    pub length: usize,
}

// Before the first byte of the input.
const START: Scan = Scan {
    phase: Phase::FirstLine,
    ok: true,
    word: Word::Empty,
    ports: 0,
    masks: 0,
    length: 0,
};

// Puts a value behind n others, if that is one of the first K places.
fn put<T: Copy, const K: usize>(table: &mut [T], n: usize, x: T)
    requires { K ≤ length table.old }
    ensures { table.new ≡ placed K table.old n x }
{
    if n < K {
        table[n] = x;
    }
}

impl Scan {
    // Before the first byte of the input: in line 1.
    pub fn start() -> Scan
        ensures { Starts result }
    {
        START
    }

    // Ends a word of line 2: one mask more, as far as 17.
    fn end_word(self, masks: &mut [u64]) -> Scan
        requires { 16 ≤ length masks.old }
        ensures { EndsWord self masks.old result masks.new }
    {
        let mask = self.word.run();
        put::<u64, 16>(masks, self.masks, mask.unwrap_or(0));
        Scan {
            ok: self.ok && mask.is_some(),
            word: Word::Empty,
            masks: self.masks.min(16) + 1,
            ..self
        }
    }

    // A byte of line 1.
    fn pass_first(self, b: u8) -> Scan
        ensures { PassesFirst self b result }
    {
        if b != b'\n' {
            return Scan {
                word: self.word.add_byte(b),
                ..self
            };
        }
        let ports = self.word.run();
        Scan {
            phase: Phase::SecondLine,
            ok: ports.is_some(),
            ports: ports.unwrap_or(0),
            ..START
        }
    }

    // A byte of line 2.
    fn pass_second(self, b: u8, masks: &mut [u64]) -> Scan
        requires { 16 ≤ length masks.old }
        ensures { PassesSecond self b masks.old result masks.new }
    {
        match b {
            b' ' => self.end_word(masks),
            b'\n' => Scan {
                phase: Phase::Text,
                ..self.end_word(masks)
            },
            _ => Scan {
                word: self.word.add_byte(b),
                ..self
            },
        }
    }

    // A byte of the text: one more, as far as 4,097.
    fn pass_text(self, b: u8, text: &mut [u8]) -> Scan
        requires { 4097 ≤ length text.old }
        ensures { PassesText self b text.old result text.new }
    {
        put::<u8, 4097>(text, self.length, b);
        Scan {
            length: self.length.min(4096) + 1,
            ..self
        }
    }

    // One byte of the input.
    fn pass_byte(self, b: u8, masks: &mut [u64], text: &mut [u8]) -> Scan
        requires { InputRoom masks.old text.old }
        ensures { PassesPiece self (b ∷ []) masks.old text.old result masks.new text.new }
    {
        match self.phase {
            Phase::FirstLine => self.pass_first(b),
            Phase::SecondLine => self.pass_second(b, masks),
            Phase::Text => self.pass_text(b, text),
        }
    }

    // The next bytes of the input.
    pub fn step(self, bytes: &[u8], masks: &mut [u64], text: &mut [u8]) -> Scan
        requires { InputRoom masks.old text.old }
        ensures { PassesPiece self bytes.now masks.old text.old result masks.new text.new }
    {
        let mut s = self;
        for b in bytes {
            s = s.pass_byte(*b, masks, text);
        }
        s
    }

    // Whether nothing that follows changes the line: a word of the first two lines is wrong, or the text is too long.
    pub fn decided(self) -> bool
        ensures { DecidesLine self result }
    {
        match self.phase {
            Phase::FirstLine => matches!(self.word, Word::NoRun),
            Phase::SecondLine => !self.ok || matches!(self.word, Word::NoRun),
            Phase::Text => !self.ok || self.length == 4097,
        }
    }

    // The end of the input: "Line 2 may end where the input ends". An input with no line end is not as it should be.
    pub fn close(self, masks: &mut [u64]) -> Scan
        requires { 16 ≤ length masks.old }
        ensures { Closes self masks.old result masks.new }
    {
        match self.phase {
            Phase::FirstLine => Scan { ok: false, ..START },
            Phase::SecondLine => self.end_word(masks),
            Phase::Text => self,
        }
    }
}
