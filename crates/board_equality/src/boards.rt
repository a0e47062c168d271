// Boards compared: the checks of both, then field by field up to the first that differs. (01: equality; Eight refusals)
ghost use Rattle.std.specs.Prelude.{ℕ, ◌≤◌, ◌≡◌, List, [], length, eqb};
ghost use Rattle.lin_spec.specs.Lent.{lent, meaning};
ghost use Rattle.lin_spec.specs.Equality.{eq_option, equal as equal_to, same_boards, same_board};
ghost use Rattle.board_lent.specs.Heads.{board_of};
ghost use Rattle.text.specs.Apart.{common};
ghost use Rattle.board_equality.specs.Parts.{most_checked, unlike_but, same_dealt, same_texts, same_play};

use crate::hands::same_deal;
use crate::texts::{front_of, same_calls, same_names, same_text};
use board_lent::{Head, bounds_of, head_of, ill_texts};
use lin_spec::{Board, LIMIT, Refusal};
use text::same_bytes;

// Whether dealer, deal and vulnerability are the same.
fn same_dealt(head: Head, counts: &[u32; 208], head2: Head, counts2: &[u32; 208]) -> bool
    ensures { result ≡ same_dealt (board_of head counts.now) (board_of head2 counts2.now) }
{
    head.dealer == head2.dealer
        && same_deal(counts, counts2)
        && head.vulnerability == head2.vulnerability
}

// Whether title, room and header are the same.
fn same_texts(first: usize, text: &[u8], head: Head, text2: &[u8], head2: Head) -> bool
    requires { first ≤ common text.now text2.now }
    ensures { result ≡ same_texts text.now (board_of head []) text2.now (board_of head2 []) }
{
    same_text(first, text, head.title, text2, head2.title)
        && same_text(first, text, head.room_board, text2, head2.room_board)
        && same_text(first, text, head.board_header, text2, head2.board_header)
}

// Whether cards and claim are the same.
fn same_play(cards: &[u8], head: Head, cards2: &[u8], head2: Head) -> bool
    ensures { result ≡ same_play cards.now (board_of head []) cards2.now (board_of head2 []) }
{
    same_bytes(cards, cards2) && head.claim == head2.claim
}

// Whether the first board equals the second.
fn equal(
    text: &[u8],
    head: Head,
    counts: &[u32; 208],
    rows: &[u32],
    cards: &[u8],
    text2: &[u8],
    head2: Head,
    counts2: &[u32; 208],
    rows2: &[u32],
    cards2: &[u8],
) -> bool
    ensures { result ≡ equal_to (meaning (lent text.now (board_of head counts.now) rows.now cards.now)) (meaning (lent text2.now (board_of head2 counts2.now) rows2.now cards2.now)) }
{
    let first = front_of(text, rows, text2);
    if !same_names(first, text, head.names, text2, head2.names) {
        return false;
    }
    if !same_dealt(head, counts, head2, counts2) {
        return false;
    }
    if !same_texts(first, text, head, text2, head2) {
        return false;
    }
    if !same_calls(first, text, rows, text2, rows2) {
        return false;
    }
    same_play(cards, head, cards2, head2)
}

// The first of the checks that meets the call, each over both boards before the next but 6, which is over the first, whatever the deals.
fn check_both(
    other: bool,
    text: &[u8],
    head: Head,
    rows: &[u32],
    cards: &[u8],
    text2: &[u8],
    head2: Head,
    rows2: &[u32],
    cards2: &[u8],
) -> Result<(), Refusal>
    ensures { (counts counts2 : List ℕ) → result ≡ most_checked other (lent text.now (board_of head counts) rows.now cards.now) (lent text2.now (board_of head2 counts2) rows2.now cards2.now) }
{
    if LIMIT < text.len() {
        return Err(Refusal::TextTooLong);
    }
    if LIMIT < text2.len() {
        return Err(Refusal::TextTooLong);
    }
    if other {
        return Err(Refusal::OutOfRange);
    }
    let a = bounds_of(text, head, rows, cards);
    let b = bounds_of(text2, head2, rows2, cards2);
    if a.number | b.number {
        return Err(Refusal::OutOfRange);
    }
    if a.past | b.past {
        return Err(Refusal::SpanPastEnd);
    }
    if ill_texts(text, head, rows) {
        return Err(Refusal::SpanNotUtf8);
    }
    Ok(())
}

// The answer for two boards that differ, if the checks of both but 6 of the second have passed.
fn unlike(text2: &[u8], head2: Head, rows2: &[u32]) -> Result<bool, Refusal>
    ensures { (counts2 cards2 : List ℕ) → result ≡ unlike_but (lent text2.now (board_of head2 counts2) rows2.now cards2) }
{
    if ill_texts(text2, head2, rows2) {
        return Err(Refusal::SpanNotUtf8);
    }
    Ok(false)
}

// Whether the first board equals the second, each without its deal and with the counts of its deal. `other` says whether another number of the call
// is outside its range. A board that equals one whose texts are UTF-8 has texts that are, so 6 is looked for in the second only where they differ.
pub fn same_heads(
    other: bool,
    text: &[u8],
    head: Head,
    counts: &[u32; 208],
    rows: &[u32],
    cards: &[u8],
    text2: &[u8],
    head2: Head,
    counts2: &[u32; 208],
    rows2: &[u32],
    cards2: &[u8],
) -> Result<bool, Refusal>
    requires { (length counts.now ≡ 208) × (length counts2.now ≡ 208) }
    ensures { result ≡ same_boards other (lent text.now (board_of head counts.now) rows.now cards.now) (lent text2.now (board_of head2 counts2.now) rows2.now cards2.now) }
{
    check_both(other, text, head, rows, cards, text2, head2, rows2, cards2)?;
    if equal(
        text, head, counts, rows, cards, text2, head2, counts2, rows2, cards2,
    ) {
        return Ok(true);
    }
    unlike(text2, head2, rows2)
}

// Whether the first board equals the second; each card of the first board's hands is looked for in the second's.
pub fn same_board(
    text: &[u8],
    board: Board,
    rows: &[u32],
    cards: &[u8],
    text2: &[u8],
    board2: Board,
    rows2: &[u32],
    cards2: &[u8],
) -> Result<bool, Refusal>
    ensures { result ≡ same_board (lent text.now board rows.now cards.now) (lent text2.now board2 rows2.now cards2.now) }
{
    let head = head_of(board);
    let head2 = head_of(board2);
    same_heads(
        false,
        text,
        head,
        &board.deal.counts,
        rows,
        cards,
        text2,
        head2,
        &board2.deal.counts,
        rows2,
        cards2,
    )
}
