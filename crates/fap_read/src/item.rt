ghost use Rattle.std.specs.Prelude.{◌≡◌, ◌+◌, ◌<◌, ◌≤◌, ◌∷◌, ◌==◌, [], IfSome, get_or, length, not};
ghost use Rattle.std.specs.Option.{option_map};
ghost use Rattle.std.specs.List.{prefix_len};
ghost use Rattle.fap_model.specs.Terms.{items_of};
ghost use Rattle.fap_read.specs.Peeled.{items_behind};

/// The number of bytes up to a comma.
fn item_len(text: &[u8]) -> usize
    ensures value { result ≡ prefix_len (λ b. not (b == 44)) text.now }
    ensures within { result ≤ length text.now }
{
    text.iter().take_while(|b| **b != b',').count()
}

/// The text up to the first comma; and where there is one, what stands behind it.
#[tactic(auto, using(crate::proofs::Items::items_last, crate::proofs::Items::items_first))]
pub fn first_item(field: &[u8]) -> (&[u8], Option<&[u8]>)
    ensures items { items_of field.now ≡ result.0.now ∷ items_behind (option_map (λ rest. rest.now) result.1) }
    ensures shorter { IfSome result.1 (λ rest. length rest.now < length field.now) }
    ensures lengths { IfSome result.1 (λ rest. length field.now ≡ length result.0.now + (1 + length rest.now)) }
{
    let n = item_len(field);
    let first = field.split_at(n).0;
    if n == field.len() {
        (first, None)
    } else {
        (first, Some(field.split_at(n + 1).1))
    }
}

/// How many items there are. There is always one, which may be empty.
#[tactic(auto, using(crate::proofs::Items::item_total))]
pub fn item_count(field: &[u8]) -> usize
    ensures { result ≡ length (items_of field.now) }
{
    field.iter().filter(|b| **b == b',').count() + 1
}

/// The item at a place, and an empty one where there are fewer.
pub fn item_at(field: &[u8], place: usize) -> &[u8]
    ensures { result.now ≡ get_or (items_of field.now) place [] }
{
    let mut rest = field;
    let mut left = place;
    'items: while 0 < left {
        match first_item(rest).1 {
            None => return &[],
            Some(more) => rest = more,
        }
        left -= 1;
    }
    first_item(rest).0
}
