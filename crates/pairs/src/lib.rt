// The first pair of own items that share a name, from a number for each name. Every public function takes any table.
#![tactic(auto)]

ghost use Rattle.std.specs.Prelude.{◌≡◌};
ghost use Rattle.pairs.specs.code.Pairs.{pair_of};

// Of the first n pieces, each with its name's number, 0 for none: smallest earlier piece, then smallest later.
pub fn first_pair(owns: &[u64], n: usize) -> Option<(usize, usize)>
    ensures { result ≡ pair_of owns.now n }
{
    let end = n.min(owns.len());
    let mut pair = None;
    'pairs: for i in 0..end {
        let own = owns[i];
        for j in i + 1..end {
            if (own != 0) & (own == owns[j]) {
                pair = Some((i, j));
                break 'pairs;
            }
        }
    }
    pair
}
