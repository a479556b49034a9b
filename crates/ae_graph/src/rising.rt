// Numbers in rising order.
ghost use Rattle.std.specs.Prelude.{IfOk};
ghost use Rattle.ae_graph.specs.Rising.{IsRisingOf};

use ae_text::Items;

// The numbers, each once and in rising order.
pub fn rising(mut numbers: Vec<u32>) -> Items<u32>
    ensures { IsRisingOf numbers.items result }
{
    numbers.sort_unstable();
    numbers.dedup();
    Items::from_vec(numbers)
}
