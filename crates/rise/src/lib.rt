// The function over the path: it calls itself for the parent level with the new pairs, until a level has room or the root itself is rewritten.
#![tactic(auto)]

ghost use Rattle.std.specs.Prelude.{◌≡◌, ◌+◌, ◌≤◌, length};
ghost use Rattle.level.specs.Level.{sent_list, AllSmall};
ghost use Rattle.climb.specs.Levels.{risen, rise_on, topped, Ready};

use bucket::Card;
use level::Sent;
use rules::Head;

// What was sent goes into the bucket of the lowest level left, or that bucket is rewritten and its pairs go on to the levels above. The call of itself comes last, and no hand lies in this frame.
pub fn rise(card: &mut [u8], levels: &[u32], p: &Sent, fresh: usize, head: Head, stamp: u32)
    requires ready { Ready head card.old levels.now fresh × AllSmall (sent_list p.now) }
    requires card_bound { (topped head stamp (rise_on head stamp levels.now (risen (sent_list p.now) fresh card.old))).fresh ≤ head.n + 1 }
    ensures { card.new ≡ (topped head stamp (rise_on head stamp levels.now (risen (sent_list p.now) fresh card.old))).card }
{
    let [b, above @ ..] = levels else {
        climb::new_root(card, head, p, fresh, stamp);
        return;
    };
    let used = climb::used_in(&Card { bytes: card, head }, *b);
    if used + level::sent_count(*p) <= head.m {
        climb::write_in(card, head, *b, used, p);
        return;
    }
    let r = climb::rewrite(card, head, *b, used, p, fresh, stamp);
    rise(card, above, &r.sent, r.fresh, head, stamp);
}
