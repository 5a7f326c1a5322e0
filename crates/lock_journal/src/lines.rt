//! The lines of a run's text, one at a time.

ghost use Rattle.std.specs.Prelude.{◌≡◌, ◌∷◌, [], MatchBool};
ghost use Rattle.lock_journal.specs.LinesLeft.{lines_left, lines_left_ended, lines_of_ended, IsShown, IsShownEnded};
ghost use Rattle.lock_journal.specs.declared.record.RunRecord.{RunRecord};
ghost use Rattle.lock_journal.specs.RunText.{lines_of_run};
ghost use Rattle.plain_machine.specs.Machine.{PlainMachine};

use crate::cells::Place;
use crate::classes::next_class;
use crate::journal::next_entry;
use crate::line::Line;
use crate::order::Merge;
use crate::prints::next_said;
use crate::record::RunRecord;
use crate::threads::{next_ended, next_thread};
use plain_machine::Machine;

/// The lines of a run's text, one after the other: what its entries print and dump by rising stamp, then how each thread ended
/// or where it stands, then, where asked for, the statistics of each class, and a line for each entry by rising stamp. It takes
/// no memory of the heap.
///
/// It isn't given its run when it is made, so its merges begin before the first entry of any run. It can't keep the stamps of the
/// heads from line to line either, since they are those of one run. A replay can (`Ahead`): it goes on in one log while the
/// stamps there are below those of the others.
#[derive(Drop)]
pub struct Lines {
    /// Whether the classes have lines.
    stats: bool,
    /// Whether the entries have lines of their own.
    journal: bool,
    /// The next cell of the dump that is being given.
    cells: Option<Place>,
    /// Gives the entries whose prints and dumps are left.
    prints: Merge,
    /// The thread of the last print or dump, if there was one.
    printer: Option<u32>,
    /// The next thread that has a line.
    thread: u32,
    /// The next class that has a line.
    class: usize,
    /// Gives the entries that the journal has left.
    entries: Merge,
}

impl Lines {
    /// Before the first line of any run, with the statistics and the journal where they are asked for.
    pub fn new(stats: bool, journal: bool) -> Lines
        ensures under { (run : RunRecord) (m : PlainMachine) → lines_left run m result ≡ lines_of_run stats journal run m }
        ensures ended { (run : RunRecord) → lines_left_ended run result ≡ lines_of_ended journal run }
    {
        Lines {
            stats,
            journal,
            cells: None,
            prints: Merge::before_all(),
            printer: None,
            thread: 0,
            class: 0,
            entries: Merge::before_all(),
        }
    }

    /// Writes the next line with its line feed into `out`, in place of what it held. False exactly after the last, and then
    /// `out` is empty. Every call is given one run, of logs whose stamps rise and that are empty after the sixteenth, and the machine
    /// under it: with the program of the run and all of its threads.
    pub fn next(&mut self, run: &RunRecord, machine: &Machine, out: &mut Line) -> bool
        requires { IsShown run.now machine.now }
        ensures { MatchBool result
            (lines_left run.now machine.now self.old ≡ out.new ∷ lines_left run.now machine.now self.new)
            ((lines_left run.now machine.now self.old ≡ []) × (lines_left run.now machine.now self.new ≡ [])
            × (out.new ≡ [])) }
    {
        out.clear();
        if next_said(
            &mut self.prints,
            &mut self.printer,
            &mut self.cells,
            run,
            out,
        ) {
            return true;
        }
        if next_thread(&mut self.thread, &run.program, machine, out) {
            return true;
        }
        if self.stats && next_class(&mut self.class, run, machine, out) {
            return true;
        }
        self.journal && next_entry(&mut self.entries, run, out)
    }

    /// The same with no machine, and with no line on a class: the lines on threads are those that the last entries of the logs say, which
    /// are those of the machine where each log ends with its thread's ending (`have_ended`).
    pub fn next_ended(&mut self, run: &RunRecord, out: &mut Line) -> bool
        requires { IsShownEnded run.now }
        ensures { MatchBool result
            (lines_left_ended run.now self.old ≡ out.new ∷ lines_left_ended run.now self.new)
            ((lines_left_ended run.now self.old ≡ []) × (lines_left_ended run.now self.new ≡ []) × (out.new ≡ [])) }
    {
        out.clear();
        if next_said(
            &mut self.prints,
            &mut self.printer,
            &mut self.cells,
            run,
            out,
        ) {
            return true;
        }
        if next_ended(&mut self.thread, run, out) {
            return true;
        }
        self.journal && next_entry(&mut self.entries, run, out)
    }
}
