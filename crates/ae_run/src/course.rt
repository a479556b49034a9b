// What became of the statements of a block. A law of the meaning is called where a proof takes it from there; the call does nothing.
ghost use Rattle.std.specs.Prelude.{◌≡◌, ◌<◌, ◌≤◌, ◌↔◌, ℕ, false, [], length, take, IfOk, OnOk, IsTrue, slice_set};
ghost use Rattle.ae_tree.specs.Shown.{action, lines_from, code as plain};
ghost use Rattle.ae_tree.specs.Limits.{statement_count};
ghost use Rattle.ae_tree.specs.Built.{Built};
ghost use Rattle.ae_meaning.specs.Values.{empty};
ghost use Rattle.ae_meaning.specs.Meaning.{today_one};
ghost use Rattle.ae_meaning.specs.Running.{env_of, held};
ghost use Rattle.ae_run.specs.Main.{main_lines, main_uses};
ghost use Rattle.ae_run.specs.Flow.{IsReady};
ghost use Rattle.ae_run.specs.Course.{went, was_taken, fate_at, Gives, IsOnCourse, IsBehind, Settles, piece_of};
ghost use Rattle.ae_run.specs.Course.{pieces, course_ending, course_end};

use ae_code::Checked;
use ae_meaning::{
    Ending, Locals, RunReport, Running, Stop, run_stmt, statements_change_what_they_write,
    statements_read_what_they_use,
};
use ae_text::{Gate, Items};
use ae_tree::Stmt;
use std::alloc::{AllocError, Global};
use std::mem;

/// What became of a statement.
#[derive(Drop)]
pub enum Fate {
    /// It waits for its turn.
    Waiting,
    /// It went through and printed these bytes.
    Went(Items<u8>),
    /// It did not go through, or stands after an ending and was left out.
    Stopped,
}

impl Fate {
    // What the statement printed.
    fn piece(&self) -> &[u8]
        ensures { result.now ≡ piece_of self.now }
    {
        match self {
            Fate::Went(piece) => piece.as_slice(),
            Fate::Waiting | Fate::Stopped => &[],
        }
    }
}

// What came of a statement that was run.
#[derive(Drop)]
pub enum Outcome {
    Went(Items<u8>),
    Ended(Ending),
    Lacks,
}

/// The first known ending in source order, and the number of its statement.
#[derive(Clone, Copy, Debug)]
pub struct First {
    pub at: u32,
    pub ending: Ending,
}

/// The shared locals, what became of each statement, and the first known ending.
#[derive(Drop)]
pub struct Course {
    pub state: Running,
    pub fates: Vec<Fate>,
    pub first: Option<First>,
}

// The statements of the one method.
fn main_stmts(code: &Checked) -> &[Stmt]
    requires { Built (plain code.now.program) }
    ensures lines { lines_from result.now ≡ main_lines (plain code.now.program) }
    ensures count { length result.now ≡ statement_count (main_lines (plain code.now.program)) }
{
    let methods = code.program().methods.as_slice();
    let stmts = methods[0].body.stmts.as_slice();
    stmts
}

// Runs the statement with this number, tells the gate, and takes what it printed.
fn run_alone<G: Gate>(
    alloc: Global,
    stmt: &Stmt,
    j: u32,
    state: &mut Running,
    gate: &G,
) -> Result<Outcome, AllocError>
    ensures { IfOk result (λ o. Gives (today_one stmt.now.at (action stmt.now.kind) (held state.old))
        (env_of state.old.locals) o (held state.new)) }
{
    gate.enter(j);
    let ran = run_stmt(alloc, stmt, state);
    gate.leave(j);
    match ran {
        Ok(()) => {
            let piece = mem::replace(&mut state.log, Vec::new(alloc));
            Ok(Outcome::Went(Items::from_vec(piece)))
        }
        Err(Stop::Ended(ending)) => Ok(Outcome::Ended(ending)),
        Err(Stop::Lack) => Ok(Outcome::Lacks),
        Err(Stop::Memory) => Err(AllocError),
    }
}

// What these statements printed, in their order.
#[tactic(auto, using(crate::proofs::Pieces::pieces_more))]
fn printed(alloc: Global, fates: &[Fate]) -> Result<Items<u8>, AllocError>
    ensures { IfOk result (λ out. out ≡ pieces fates.now) }
{
    let mut out = Vec::new(alloc);
    for fate in fates {
        out.extend_from_slice(fate.piece())?;
    }
    Ok(Items::from_vec(out))
}

impl Course {
    /// All statements wait.
    #[tactic(auto, using(crate::proofs::Lists::default_pushed))]
    pub fn new(alloc: Global, count: u32) -> Result<Course, AllocError>
        ensures size { IfOk result (λ c. length c.fates.items ≡ count) }
        ensures fates { IfOk result (λ c. (j : ℕ) → fate_at c.fates.items j ≡ Fate.Waiting) }
        ensures first { IfOk result (λ c. c.first ≡ None) }
        ensures locals { IfOk result (λ c. env_of c.state.locals ≡ empty) }
        ensures log { IfOk result (λ c. c.state.log.items ≡ []) }
    {
        let mut fates = Vec::new(alloc);
        for _j in 0..count {
            fates.push(Fate::Waiting)?;
        }
        let state = Running {
            locals: Locals::new(alloc),
            log: Vec::new(alloc),
        };
        Ok(Course {
            state,
            fates,
            first: None,
        })
    }

    // Whether an ending before this statement is known.
    fn is_behind(&self, j: u32) -> bool
        ensures { IsTrue result ↔ IsBehind self.now.first j }
    {
        match self.first {
            Some(first) => first.at < j,
            None => false,
        }
    }

    // This has become of the statement.
    fn set(&mut self, j: u32, fate: Fate)
        requires { j < length self.old.fates.items }
        ensures fates { self.new.fates.items ≡ slice_set self.old.fates.items j fate }
        ensures first { self.new.first ≡ self.old.first }
        ensures state { self.new.state ≡ self.old.state }
    {
        self.fates[j as usize] = fate;
    }

    /// Runs a ready statement, or leaves it out where an ending before it is known. Says whether it went through.
    pub fn settle<G: Gate>(
        &mut self,
        alloc: Global,
        code: &Checked,
        j: u32,
        gate: &G,
    ) -> Result<bool, AllocError>
        requires built { Built (plain code.now.program) }
        requires within { j < statement_count (main_lines (plain code.now.program)) }
        requires counted { j < length self.old.fates.items }
        requires course { IsOnCourse (plain code.now.program) self.old }
        requires ready { IsReady (main_uses (plain code.now.program)) (went self.old.fates.items) j }
        requires untaken { was_taken self.old.fates.items j ≡ false }
        ensures course { OnOk result (IsOnCourse (plain code.now.program) self.new) }
        ensures fates { IfOk result (λ through. Settles self.old.fates.items self.new.fates.items j through) }
    {
        if self.is_behind(j) {
            self.set(j, Fate::Stopped);
            return Ok(false);
        }
        statements_read_what_they_use();
        statements_change_what_they_write();
        let stmts = main_stmts(code);
        match run_alone(alloc, &stmts[j as usize], j, &mut self.state, gate)? {
            Outcome::Went(piece) => {
                self.set(j, Fate::Went(piece));
                Ok(true)
            }
            Outcome::Ended(ending) => {
                self.set(j, Fate::Stopped);
                self.first = Some(First { at: j, ending });
                Ok(false)
            }
            Outcome::Lacks => {
                self.set(j, Fate::Stopped);
                Ok(false)
            }
        }
    }

    /// The first ending and what the statements before it printed, in source order.
    pub fn report(&self, alloc: Global) -> Result<RunReport, AllocError>
        requires { course_end self.now.first (length self.now.fates.items) ≤ length self.now.fates.items }
        ensures ending { IfOk result (λ r. r.ending ≡ course_ending self.now.first) }
        ensures out { IfOk result (λ r. r.out
            ≡ pieces (take (course_end self.now.first (length self.now.fates.items)) self.now.fates.items)) }
    {
        let (ending, end) = match self.first {
            Some(first) => (first.ending, first.at as usize),
            None => (Ending::Done, self.fates.len()),
        };
        let out = printed(alloc, &self.fates[..end])?;
        Ok(RunReport { ending, out })
    }
}
