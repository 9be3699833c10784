//! The transactions that are open at an object, with the number of open entries of each.

ghost use Rattle.std.specs.Prelude.{◌≡◌, ◌<◌, ◌+◌, ◌-◌, ◌≤◌, IfSome, IfNone, vec_len, vec_capacity};
ghost use Rattle.undo_manager.specs.Opened.{count_of, AreListedOnce, IsRecounted, IsPlaceOf};

/// A transaction, and the number of its open entries, which is at least 1.
#[derive(Clone, Copy)]
pub struct Opened {
    pub by: u32,
    pub count: u32,
}

/// Counts one more entry of t, for which there is room.
#[inline(always)]
pub fn count_one_more(counts: &mut Vec<Opened>, t: u32)
    requires listed { AreListedOnce counts.old.items }
    requires room { vec_len counts.old < vec_capacity counts.old }
    requires fits { count_of t counts.old.items < 4294967295 }
    ensures { IsRecounted t (count_of t counts.old.items + 1) counts.old.items counts.new.items }
{
    match place_of(counts, t) {
        Some(place) => {
            let one = counts[place];
            let count = one.count + 1;
            counts[place] = Opened { count, ..one };
        }
        None => counts.push_reserved(Opened { by: t, count: 1 }),
    }
}

/// Takes m from t's count, which is at least m, and answers what is left of it.
pub fn count_fewer(counts: &mut Vec<Opened>, t: u32, m: u32) -> u32
    requires listed { AreListedOnce counts.old.items }
    requires held { m ≤ count_of t counts.old.items }
    ensures left { result ≡ count_of t counts.old.items - m }
    ensures counts { IsRecounted t (count_of t counts.old.items - m) counts.old.items counts.new.items }
{
    let Some(place) = place_of(counts, t) else {
        return 0;
    };
    let one = counts[place];
    let count = one.count - m;
    if count == 0 {
        counts.swap_remove(place);
    } else {
        counts[place] = Opened { count, ..one };
    }
    count
}

/// Takes t out of the list, and answers its count.
pub fn take_count(counts: &mut Vec<Opened>, t: u32) -> u32
    requires { AreListedOnce counts.old.items }
    ensures count { result ≡ count_of t counts.old.items }
    ensures counts { IsRecounted t 0 counts.old.items counts.new.items }
{
    match place_of(counts, t) {
        Some(place) => counts.swap_remove(place).count,
        None => 0,
    }
}

/// The place of t in the list, where it is listed.
fn place_of(counts: &[Opened], t: u32) -> Option<usize>
    ensures some { IfSome result (IsPlaceOf t counts.now) }
    ensures none { IfNone result (count_of t counts.now ≡ 0) }
{
    for (place, one) in counts.iter().enumerate() {
        if one.by == t {
            return Some(place);
        }
    }
    None
}
