ghost use Rattle.std.specs.Prelude.{◌≡◌, Some};
ghost use Rattle.jobs.specs.Trees.{tied, takes, linked, name_of};

use std::fmt;

// How the value of a link between two stops is found.
#[derive(Clone, Copy, Debug, PartialEq, Eq)]
pub enum Link {
    // one leg, valued as that leg
    Direct,
    // the best walk of one leg or more
    Ride,
}

// A letter that stands for no link.
#[derive(Clone, Copy, Debug, PartialEq, Eq)]
pub struct UnknownLink {
    pub letter: u8,
}

// The link that a letter stands for.
impl TryFrom<u8> for Link {
    type Error = UnknownLink;

    ghost try_from_gives = { λ letter r. r ≡ linked letter };

    fn try_from(letter: u8) -> Result<Link, UnknownLink> {
        match letter {
            b'd' => Ok(Link::Direct),
            b'r' => Ok(Link::Ride),
            _ => Err(UnknownLink { letter }),
        }
    }
}

// The name of a link.
impl fmt::Display for Link {
    ghost output = { λ link. Some (name_of link) };

    fn fmt<W: fmt::Write>(&self, f: &mut fmt::Formatter<W>) -> fmt::Result {
        f.write_str(match self {
            Link::Direct => "direct",
            Link::Ride => "ride",
        })
    }
}

// How a stop hangs on its parent, which is a stop with a smaller number.
#[derive(Clone, Copy, Debug, PartialEq, Eq)]
pub struct Tie {
    pub parent: u8,
    pub link: Link,
}

// A stop of a job. Kind 0 means any kind: that it is 0, and not none, is a rule of the formats. Stop 0, the root, alone has
// no tie. The default is of any kind and has no tie.
#[derive(Clone, Copy, Debug, PartialEq, Eq, Default)]
pub struct Stop {
    pub kind: u8,
    pub tie: Option<Tie>,
}

// Why a stop is not taken up, or a draft not put into a job.
#[derive(Clone, Copy, Debug, PartialEq, Eq)]
pub enum Refused {
    // there are twelve stops already
    Full,
    // stop 0 has a tie, or another stop has none or one to a parent that is not below it
    WrongTie,
    // there are no stops
    Empty,
}

impl Stop {
    // Whether the stop of this number may be tied as this one is.
    pub fn tied_at(self, number: usize) -> bool
        ensures { result ≡ tied number self.tie }
    {
        self.tie
            .map_or(number == 0, |tie| usize::from(tie.parent) < number)
    }

    // Whether a place of this kind may stand for the stop.
    pub fn takes(self, kind: u8) -> bool
        ensures { result ≡ takes self kind }
    {
        self.kind == 0 || self.kind == kind
    }
}
