// The commands, and the first word of each.
ghost use Rattle.std.specs.Prelude.{◌≡◌};
ghost use Rattle.script.specs.Verbs.{verb_of};

// Where a stop is to fall.
#[derive(Clone, Copy, PartialEq, Eq, Debug)]
pub enum StopAt {
    Now,
    // At the slot that is so many from now; 1 is the next.
    Slot(u64),
    FileOld,
    FileNew,
}

#[derive(Debug, Drop)]
pub enum Command {
    Begin {
        object: u64,
        bytes: Vec<u8>,
    },
    Write {
        object: u64,
        drive: u64,
    },
    Finish {
        object: u64,
    },
    Read {
        object: u64,
    },
    Tidy {
        object: u64,
        drive: u64,
    },
    Mend {
        object: u64,
        drive: u64,
    },
    Sweep {
        drive: u64,
    },
    Out {
        drive: u64,
    },
    In {
        drive: u64,
    },
    Settle {
        object: u64,
    },
    GiveUp {
        object: u64,
    },
    Put {
        object: u64,
        bytes: Vec<u8>,
    },
    Heal,
    Count,
    Show,
    Stop(StopAt),
    Wipe {
        drive: u64,
    },
    Spoil {
        drive: u64,
        object: u64,
        version: u64,
    },
}

// A command's first word.
#[derive(Clone, Copy, PartialEq, Eq, Debug)]
pub enum Verb {
    Begin,
    Put,
    Write,
    Tidy,
    Mend,
    Finish,
    Read,
    Settle,
    Sweep,
    Out,
    In,
    Wipe,
    Heal,
    Count,
    Show,
    Spoil,
    Give,
    Stop,
}

pub fn verb_of(word: &[u8]) -> Option<Verb>
    ensures { result ≡ verb_of word.now }
{
    match word {
        b"begin" => Some(Verb::Begin),
        b"put" => Some(Verb::Put),
        b"write" => Some(Verb::Write),
        b"tidy" => Some(Verb::Tidy),
        b"mend" => Some(Verb::Mend),
        b"finish" => Some(Verb::Finish),
        b"read" => Some(Verb::Read),
        b"settle" => Some(Verb::Settle),
        b"sweep" => Some(Verb::Sweep),
        b"out" => Some(Verb::Out),
        b"in" => Some(Verb::In),
        b"wipe" => Some(Verb::Wipe),
        b"heal" => Some(Verb::Heal),
        b"count" => Some(Verb::Count),
        b"show" => Some(Verb::Show),
        b"spoil" => Some(Verb::Spoil),
        b"give" => Some(Verb::Give),
        b"stop" => Some(Verb::Stop),
        _ => None,
    }
}
