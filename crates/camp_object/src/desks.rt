//! The desk: where one caller asks an object.
ghost use Rattle.std.specs.Prelude.{◌≡◌, List, ℕ};
ghost use Rattle.std.proofs.Common.{refl, ◌∙◌};
ghost use Rattle.camp_object.specs.Asking.{Ask, Caller, IsNotBusy, alone_at};
ghost use Rattle.camp_object.specs.Objects.{begun};

use crate::{Book, Fault, Object};

/// Where one caller asks an object. Others may add calls to its history. Proofs see who asks (`caller`), the initial
/// state of the history (`first`), the history that the caller has seen (`seen`), whether nobody else can ask
/// (`is_only`), and whether one desk is a later state of another (`keeps`).
pub trait Desk<State: Object> {
    ghost caller: { Self → Caller };

    ghost first: { Self → State };

    ghost seen: { Self → List (ℕ × State.Call) };

    ghost is_only: { Self → Type 0 };

    ghost keeps: { Self → Self → Type 0 };

    fn ask(&mut self, call: &State::Call) -> Result<State::Reply, Fault>
        ensures keeps { keeps self.old self.new }
        ensures caller { caller self.new ≡ caller self.old }
        ensures first { first self.new ≡ first self.old }
        ensures asks { Ask (begun State.object (first self.old)) (caller self.old) (seen self.old) call.now result (seen self.new) }
        ensures only { is_only self.old → IsNotBusy result };

    ghost reflexive: { (desk : Self) → keeps desk desk };

    ghost transitive: { (one two three : Self) → keeps one two → keeps two three → keeps one three };
}

/// A seat at a book to which nobody else adds.
#[derive(Drop)]
pub struct BookDesk<'a, State: Object> {
    book: &'a mut Book<State>,
    seat: u32,
}

impl<'a, State: Object> BookDesk<'a, State> {
    pub fn new(book: &'a mut Book<State>, seat: u32) -> BookDesk<'a, State>
        ensures lends { result.book.ghost_name ≡ book.entry.ghost_name }
        ensures caller { ⟦<BookDesk<'a, State> as Desk<State>>⟧.caller result ≡ alone_at seat }
        ensures first { ⟦<BookDesk<'a, State> as Desk<State>>⟧.first result ≡ book.old.first }
        ensures seen { ⟦<BookDesk<'a, State> as Desk<State>>⟧.seen result ≡ book.old.calls }
    {
        BookDesk { book, seat }
    }
}

impl<'a, State: Object> Desk<State> for BookDesk<'a, State> {
    ghost caller = { λ desk. alone_at desk.seat };

    ghost first = { λ desk. desk.book.now.first };

    ghost seen = { λ desk. desk.book.now.calls };

    ghost is_only = { λ desk. Unit {0} };

    ghost keeps = { λ desk later. later.book.ghost_name ≡ desk.book.ghost_name };

    fn ask(&mut self, call: &State::Call) -> Result<State::Reply, Fault> {
        self.book.ask(self.seat, call)
    }

    ghost reflexive = { λ desk. refl };

    ghost transitive = { λ one two three earlier later. later ∙ earlier };
}
