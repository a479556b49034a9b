// What is to be run.
use ae_judge::Tabled;

/// What is to be run: a program with its class table, the integers of its `main`, and the fuel.
#[derive(Clone, Copy)]
pub struct Task<'a> {
    pub tabled: Tabled<'a>,
    pub ints: &'a [i64],
    pub fuel: u32,
}
