// The public call collect. Heap words are lent to be written, the three other memories only to be read.
#![tactic(auto)]

ghost use Rattle.std.specs.Prelude.{◌≡◌};
ghost use Rattle.collect.specs.Collect.{collecting, collect_call, CollectMeans};

use framed::CollectAnswer;

pub fn collect(p: &[u32], h: &mut [u32], l: &[u8], t: &[u8]) -> CollectAnswer
    ensures exact { collect_call p.now h.old l.now t.now ≡ collecting result h.new }
    ensures meaning { CollectMeans p.now h.old l.now t.now result h.new }
{
    if !wellformed::well_formed(p, h, l, t) {
        return CollectAnswer::NotWellFormed;
    }
    let totals = collector::collect_heap(h);
    CollectAnswer::Collected(totals)
}
