//! Segments that get no records any more.
ghost use Rattle.std.specs.Prelude.{◌≡◌, ◌+◌, ◌++◌, ◌≤◌, ◌<◌, ◌^◌, vec_len, vec_capacity};
ghost use Rattle.std.specs.Option.{option_to_list};
ghost use Rattle.partition_store.specs.Stores.{IsChain, AreCut};

use segment_store::Segment;

// Puts the last segment of a log of this length behind the closed ones, and drops the records with ids above `len` from
// them. It takes no memory where there is room for one more.
pub(crate) fn retire(closed: &mut Vec<Segment>, last: Option<Segment>, length: u64, len: u64)
    requires room { vec_len closed.old + 1 ≤ vec_capacity closed.old }
    requires small { length < 2 ^ 48 }
    requires within { len ≤ length }
    requires chain { IsChain 1 (closed.old.items ++ option_to_list last) (length + 1) }
    ensures chain { IsChain 1 closed.new.items (len + 1) }
    ensures cut { AreCut len (closed.old.items ++ option_to_list last) closed.new.items }
{
    if let Some(segment) = last {
        let _ = closed.push(segment);
    }
    cut(closed, length + 1, len);
}

// Drops the records with ids above `len` from segments whose ids end before this one.
fn cut(closed: &mut Vec<Segment>, end: u64, len: u64)
    requires room { vec_len closed.old ≤ vec_capacity closed.old }
    requires small { end ≤ 2 ^ 48 }
    requires within { len + 1 ≤ end }
    requires chain { IsChain 1 closed.old.items end }
    ensures chain { IsChain 1 closed.new.items (len + 1) }
    ensures cut { AreCut len closed.old.items closed.new.items }
{
    let mut end = end;
    'newest: loop {
        let Some(mut segment) = closed.pop() else {
            return;
        };
        let first = end - segment.count();
        if first <= len {
            segment.close(len + 1 - first);
            let _ = closed.push(segment);
            return;
        }
        end = first;
    }
}
