// The ancestors of a place by their numbers: the nodes whose leaves the pass counts.
ghost use Rattle.std.specs.Prelude.{◌≡◌, ◌+◌, ◌*◌, replicate};
ghost use Rattle.walk_model.specs.Watch.{ancestor_numbers};
ghost use Rattle.walk_levels.specs.Needs.{AncestorsFit};
ghost use Rattle.powers.specs.Tables.{table_length};

use shape::TABLE_LENGTH;
use store_types::Label;

// The number of the ancestor of each height below the root, from the top down. The root's is 0.
pub fn numbers(label: Label, under: usize, widths: &[u64; TABLE_LENGTH]) -> [u64; TABLE_LENGTH]
    requires { AncestorsFit under widths.now }
    ensures { result ≡ ancestor_numbers widths.now under label.0 0 (replicate table_length 0) }
{
    let l = label.0 as u64;
    let mut numbers = [0u64; TABLE_LENGTH];
    let mut above: u64 = 0;
    for h in (1..=under).rev() {
        let width = widths[h];
        above += (l - above) / width * width;
        numbers[h] = above;
    }
    numbers
}
