//! A caller of `camp_script` and `camp_run` that stores a book as a text.
ghost use Rattle.std.specs.Prelude.{◌≡◌, ◌≤◌, length, IfOk};
ghost use Rattle.camp_object.specs.Books.{replay_book};
ghost use Rattle.camp_repo.specs.Objects.{repository};
ghost use Rattle.camp_uses.specs.StoredBooks.{book_at_seat_0};
ghost use Rattle.camp_script.specs.Sections.{most_writing_calls};

use camp_clients::serial_from;
use camp_repo::{Book, State};
use camp_run::{kept_text_leads_back, one_by_one_is_serial};
use camp_script::{kept_text, read_script};
use std::alloc::{AllocError, Global};

/// Writes a book as a script, reads the script, and executes it on a new repository with the same limits. Returns the
/// new book.
pub fn store_and_read(alloc: Global, book: &Book<State>) -> Result<Book<State>, AllocError>
    requires { length book.now.calls ≤ most_writing_calls }
    ensures history { IfOk result (λ again. again ≡ book_at_seat_0 book.now) }
    ensures state { IfOk result (λ again. replay_book repository again ≡ replay_book repository book.now) }
{
    kept_text_leads_back();
    one_by_one_is_serial();
    let text = kept_text(alloc, book.history())?;
    let Ok(script) = read_script(alloc, &text) else {
        return Err(AllocError);
    };
    let first = begin_alike(alloc, book.state())?;
    let run = serial_from::<State>(alloc, first, script.sections())?;
    let _kept = run.book.history();
    Ok(run.book)
}

/// Makes a new repository with the limits of a state.
fn begin_alike(alloc: Global, state: &State) -> Result<State, AllocError>
    ensures exact { IfOk result (λ first. first ≡ repository.first state.now) }
{
    State::with_limits(alloc, state.limits())
}
