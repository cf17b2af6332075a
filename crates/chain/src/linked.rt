//! Chains of units that are linked by a table: begin, extend, cut and free, written once for file and mini store.

ghost use Rattle.std.specs.Prelude.{◌≡◌, ℕ, ◌-◌, ◌<◌, ◌≤◌, ◌≢◌, List, length, None, slice_index};
ghost use Rattle.chain.specs.Webs.{Web, Woven, Took, Behind, Gave, Ended, EndsWith, stored, path_of, with_more, with_new, without, with_first, lengthened, begun, released, shortened};
ghost use Rattle.links.specs.Chains.{Taken};
ghost use Rattle.links.specs.Links.{FREE, END, POINTERS, at};
ghost use Rattle.store.specs.Meaning.{MAX_HEAD};

use links::walks::Surveyed;

// Units that a table links. Its calls are made by the functions below alone.
pub trait Linked {
    ghost web: { Self → Web };

    // What the units rest on.
    // Kept: a clause. As ghost field of a view that borrows host and table, which was tried, it saves none: each function
    // that is lent the view must then promise that it still holds those borrows (`shape_of-self` stays open).
    ghost sound: { Self → Type 0 };

    ghost woven: { (s : Self) → sound s → Woven (web s) };

    // What they keep if they have it, and no call needs.
    // Kept: a clause, which each call hands on: it need not hold, so it can be part of neither `sound` nor a type.
    ghost keeps: { Self → Type 0 };

    // Which unit is taken next, and what each call leaves.
    ghost next: { Web → ℕ };

    ghost took: { Web → Web };

    ghost put: { Web → ℕ → Web };

    ghost ended: { Web → ℕ → Web };

    ghost gave: { Web → ℕ → Web };

    // A free unit becomes a chain of its own, zeroed.
    fn take(&mut self) -> u32
        requires sound { sound self.old }
        requires ready { 0 < (web self.old).ready }
        ensures sound { sound self.new }
        ensures keeps { keeps self.old → keeps self.new }
        ensures told { result ≡ next (web self.old) }
        ensures left { web self.new ≡ took (web self.old) }
        ensures took { Took (web self.old) (web self.new) result }
        ensures taken { Taken (at (web self.old).links) (at (web self.new).links) result };

    // A free unit, zeroed, goes behind the last place of a chain.
    fn append(&mut self, last: u32) -> u32
        requires sound { sound self.old }
        requires ready { 0 < (web self.old).ready }
        requires end { at (web self.old).links last ≡ END }
        ensures sound { sound self.new }
        ensures keeps { keeps self.old → keeps self.new }
        ensures told { result ≡ next (web self.old) }
        ensures left { web self.new ≡ put (web self.old) last }
        ensures behind { Behind (web self.old) (web self.new) last result };

    // The chain ends at a place; answers the link that it had, which pointed on.
    fn cut_off(&mut self, place: u32) -> u32
        requires sound { sound self.old }
        requires points { at (web self.old).links place < POINTERS }
        ensures sound { sound self.new }
        ensures keeps { keeps self.old → keeps self.new }
        ensures told { result ≡ at (web self.old).links place }
        ensures left { web self.new ≡ ended (web self.old) place }
        ensures ended { Ended (web self.old) (web self.new) place };

    // The first unit of a chain becomes free; answers the link that it had.
    fn give_back(&mut self, place: u32) -> u32
        requires sound { sound self.old }
        requires live { at (web self.old).links place ≢ FREE }
        requires first { (q : ℕ) → at (web self.old).links q ≢ place }
        ensures sound { sound self.new }
        ensures keeps { keeps self.old → keeps self.new }
        ensures told { result ≡ at (web self.old).links place }
        ensures left { web self.new ≡ gave (web self.old) place }
        ensures gave { Gave (web self.old) (web self.new) place };
}

// So many units of zeros more at the end of the chain of a head, behind its last place. Called by `begin`, and by the stores
// once they have gone along the chain and have so many units ready.
// Kept: head and last place apart: `begin` calls it, and `cut` calls `release`, for a chain that no survey tells of.
pub fn lengthen<S: Linked>(s: &mut S, head: u32, last: u32, count: u32)
    requires sound { S.Linked.sound s.old }
    requires ready { count ≤ (S.Linked.web s.old).ready }
    requires room { count ≤ (S.Linked.web s.old).room }
    requires ends { (es : List ℕ) × EndsWith (S.Linked.web s.old) head last es }
    ensures sound { S.Linked.sound s.new }
    ensures keeps { S.Linked.keeps s.old → S.Linked.keeps s.new }
    ensures left { S.Linked.web s.new ≡ lengthened S.Linked.next S.Linked.put count (S.Linked.web s.old) last }
    ensures means { stored (S.Linked.web s.new) ≡ with_more (S.Linked.web s.old) head count }
{
    let mut end = last;
    for _ in 0..count {
        end = s.append(end);
    }
}

// A new chain of so many units of zeros, at least one. Called by the stores once they have so many units ready.
pub fn begin<S: Linked>(s: &mut S, count: u32) -> u32
    requires sound { S.Linked.sound s.old }
    requires some { 0 < count }
    requires ready { count ≤ (S.Linked.web s.old).ready }
    requires room { count ≤ (S.Linked.web s.old).room }
    ensures sound { S.Linked.sound s.new }
    ensures keeps { S.Linked.keeps s.old → S.Linked.keeps s.new }
    ensures told { result ≡ S.Linked.next (S.Linked.web s.old) }
    ensures left { S.Linked.web s.new ≡ begun S.Linked.next S.Linked.took S.Linked.put count (S.Linked.web s.old) result }
    ensures new { ((stored (S.Linked.web s.old)).chain result ≡ None) × (result ≤ MAX_HEAD) }
    ensures means { stored (S.Linked.web s.new) ≡ with_new (S.Linked.web s.old) result count }
{
    let head = s.take();
    lengthen(s, head, head, count - 1);
    head
}

// The chain of a head becomes free, from its head on. Called by `cut`, and by the stores once they have gone along it.
pub fn release<S: Linked>(s: &mut S, head: u32, units: u32)
    requires sound { S.Linked.sound s.old }
    requires some { 0 < units }
    requires units { units ≡ length (path_of (S.Linked.web s.old).links head) }
    ensures sound { S.Linked.sound s.new }
    ensures keeps { S.Linked.keeps s.old → S.Linked.keeps s.new }
    ensures left { S.Linked.web s.new ≡ released S.Linked.gave units (S.Linked.web s.old) head }
    ensures means { stored (S.Linked.web s.new) ≡ without (S.Linked.web s.old) head units }
{
    let mut place = head;
    for _ in 0..units {
        place = s.give_back(place);
    }
}

// The chain of a head, surveyed at the last place that stays, keeps its first `keep` units; the others become free. Called
// by the stores once they have gone along it.
pub fn cut<S: Linked>(s: &mut S, head: u32, found: Surveyed, keep: u32)
    requires sound { S.Linked.sound s.old }
    requires some { 0 < keep }
    requires fewer { keep ≤ found.units }
    requires units { found.units ≡ length (path_of (S.Linked.web s.old).links head) }
    requires place { found.place ≡ slice_index (path_of (S.Linked.web s.old).links head) (keep - 1) }
    ensures sound { S.Linked.sound s.new }
    ensures keeps { S.Linked.keeps s.old → S.Linked.keeps s.new }
    ensures left { S.Linked.web s.new ≡ shortened S.Linked.ended S.Linked.gave keep found.units (S.Linked.web s.old) found.place }
    ensures means { stored (S.Linked.web s.new) ≡ with_first (S.Linked.web s.old) head keep found.units }
{
    if keep >= found.units {
        return;
    }
    let next = s.cut_off(found.place);
    release(s, next, found.units - keep);
}
