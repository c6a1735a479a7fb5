ghost use Rattle.std.specs.Prelude.{◌≡◌, ◌≤◌, length, take};
ghost use Rattle.jobs.specs.Trees.{AllTied};

use crate::stops::Stop;

mod calls;

// A list of up to twelve stops in which each keeps the rules: stop 0, the root, has no tie, and every other has a tie
// to a parent with a smaller number.
#[derive(Clone, Copy, Debug)]
pub struct Draft {
    // an array with its count: a draft and a job are Copy, and no list type of std or arrayvec is
    stops: [Stop; 12],
    // how many of them count
    len: usize,
    ghost room: { length stops ≡ 12 },
    ghost few: { len ≤ 12 },
    ghost hung: { AllTied (take len stops) },
}

// A job: 1 to 12 stops that make a tree.
#[derive(Clone, Copy, Debug)]
pub struct Job {
    draft: Draft,
    ghost some: { 1 ≤ draft.len },
}
