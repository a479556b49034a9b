// One statement without blocks and calls.
ghost use Rattle.std.specs.Prelude.{◌≡◌, ◌++◌, IsTrue, OnOk};
ghost use Rattle.ae_tree.specs.Shown.{action, definition};
ghost use Rattle.ae_values.specs.Environments.{waiting_binds};
ghost use Rattle.ae_names.specs.Known.{names_declared};
ghost use Rattle.ae_judge.specs.Tabled.{code_of};
ghost use Rattle.ae_running.specs.Seen.{seen};
ghost use Rattle.ae_acts.specs.Acts.{acted, is_flat};
ghost use Rattle.ae_acts.specs.Doing.{ActsAs, IsReady, forms_of, names_of};

use crate::groups::{declares_group, freezes, shares};
use crate::lets::{assigns, declares, returns};
use crate::prints::{asserts, prints, prints_text};
use ae_judge::Tabled;
use ae_names::declared_names_are_free;
use ae_reads::Stop;
use ae_running::Running;
use ae_stores::{store, store_at};
use ae_tree::{Method, Stmt, StmtKind};

/// Does one statement that has no block and calls no method: the locals, the groups, the result and what was printed
/// are then as the meaning has them. A name that moves is not copied. After a fault nothing more was printed, and the
/// names of the calls that wait are as they were.
#[tactic(auto, using(ae_tree::specs::Shown::shows))]
pub fn act(tabled: &Tabled, method: &Method, stmt: &Stmt, run: &mut Running) -> Result<(), Stop>
    requires act { IsTrue (is_flat (action stmt.now.kind)) }
    requires ready { IsReady (code_of tabled.now) (definition method.now) (action stmt.now.kind) run.old }
    ensures done { ActsAs (acted (code_of tabled.now) (definition method.now) (forms_of run.old)
        (action stmt.now.kind) (seen run.old)) result run.old run.new }
    ensures names { OnOk result (names_of run.new ≡ names_of run.old ++ names_declared (action stmt.now.kind)) }
    ensures waiting { waiting_binds run.new.env ≡ waiting_binds run.old.env }
{
    declared_names_are_free();
    match &stmt.kind {
        StmtKind::Let(ty, name, rhs) => declares(tabled, run, ty, name.name, rhs),
        StmtKind::Assign(name, rhs) => assigns(tabled, run, name.name, rhs),
        StmtKind::Field(path, expr) => store(tabled, run, path, expr),
        StmtKind::Index(path, index, expr) => store_at(tabled, run, path, index, expr),
        StmtKind::Group(group) => declares_group(tabled, run, group.name),
        StmtKind::Freeze(name) => freezes(run, name.name),
        StmtKind::Share(name, group) => shares(run, name.name, group.name),
        StmtKind::PrintExpr(expr) => prints(tabled, run, expr),
        StmtKind::PrintText(text) => prints_text(run, text.as_slice()),
        StmtKind::Assert(expr) => asserts(tabled, run, expr),
        StmtKind::Return(expr) => returns(tabled, method, run, expr),
        StmtKind::Call(_)
        | StmtKind::If(_, _, None)
        | StmtKind::If(_, _, Some(_))
        | StmtKind::While(..)
        | StmtKind::Split(..)
        | StmtKind::Atomic(..) => Err(Stop::Lack),
    }
}
