//! A reading: what has been read of a list within one bracket.
ghost use Rattle.std.specs.Prelude.{◌≡◌, None};

use super::places::FirstPlaces;
use super::step::Step;
use runs::Runs;

/// The runs of the alternatives that are done, those of the sequence being read but for its last item, and that item,
/// which a star may still follow. All runs start at the first places.
#[derive(Drop)]
pub(crate) struct Reading {
    starts: FirstPlaces,
    done: Runs,
    seq: Runs,
    last: Option<Step>,
    ghost done_counted: { done.count ≡ starts.count },
    ghost seq_counted: { seq.count ≡ starts.count },
}

impl Reading {
    ghost use Rattle.matching.specs.Readings.{Begins, Pushed, Repeated, Finished, Barred};

    /// Nothing has been read.
    pub(crate) fn new(starts: FirstPlaces) -> Reading
        ensures { Begins starts.count result }
    {
        let seq = starts.runs();
        let mut done = seq;
        done.clear();
        Reading {
            starts,
            done,
            seq,
            last: None,
        }
    }

    /// One item more: the one before it joins the sequence.
    pub(crate) fn push(&mut self, step: Step)
        ensures { Pushed self.old step self.new }
    {
        // Not by `replace`: a step is large, and would be moved out and in again.
        if let Some(before) = &self.last {
            before.follow(&mut self.seq);
        }
        self.last = Some(step);
    }

    /// A star after the last item.
    pub(crate) fn star(&mut self, places: FirstPlaces)
        ensures { Repeated self.old places.count self.new }
    {
        // Not by `map`: a step is large, and would be copied on its way in and out.
        if let Some(step) = &mut self.last {
            *step = step.starred(places);
        }
    }

    // The runs of the sequence join those that are done.
    fn end_sequence(&mut self)
        ensures starts { self.new.starts ≡ self.old.starts }
        ensures done { Finished self.old self.new.done }
        ensures last { self.new.last ≡ None }
    {
        if let Some(step) = &self.last {
            step.follow(&mut self.seq);
            self.done.unite(&self.seq);
        }
        self.last = None;
    }

    /// The sequence is done, and another one begins.
    pub(crate) fn bar(&mut self)
        ensures { Barred self.old self.new }
    {
        self.end_sequence();
        self.seq = self.starts.runs();
    }

    /// All alternatives are done.
    pub(crate) fn finish(mut self) -> Runs
        ensures { Finished self result }
    {
        self.end_sequence();
        self.done
    }
}
