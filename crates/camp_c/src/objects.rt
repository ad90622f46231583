//! The value of an open handle.
ghost use Rattle.std.specs.Prelude.{◌≡◌, None, Some, length};
ghost use Rattle.camp_c.specs.Handles.{answer_of, answer_of_view, repository_in, text_of_member, view_in};

use camp_shared_session::SharedSession;
use camp_talk::{Session, View};

/// The value of an open handle.
#[derive(Drop)]
pub enum OpenObject {
    Session(Session),
    View(View),
    Member(SharedSession),
}

impl OpenObject {
    /// Returns the answer of a repository.
    pub(crate) fn answer(&self) -> &[u8]
        ensures { result.now ≡ answer_of (Some self.now) }
    {
        match self {
            OpenObject::Session(session) => session.answer(),
            _ => &[],
        }
    }

    /// Sets `at` to the first byte of the answer of a repository, and returns the number of bytes. If the value is no
    /// repository, `at` is unchanged.
    pub(crate) fn lend_answer(&self, at: &mut *const u8) -> usize
        ensures length { result ≡ length (answer_of (Some self.now)) }
        ensures unlent { repository_in (Some self.now) ≡ None → at.new ≡ at.old }
    {
        match self {
            OpenObject::Session(session) => session.lend_answer(at),
            _ => 0,
        }
    }

    /// Returns the answer of a view.
    pub(crate) fn answer_of_view(&self) -> &[u8]
        ensures { result.now ≡ answer_of_view (Some self.now) }
    {
        match self {
            OpenObject::View(view) => view.answer(),
            _ => &[],
        }
    }

    /// Sets `at` to the first byte of the answer of a view, and returns the number of bytes. If the value is no view,
    /// `at` is unchanged.
    pub(crate) fn lend_answer_of_view(&self, at: &mut *const u8) -> usize
        ensures length { result ≡ length (answer_of_view (Some self.now)) }
        ensures unlent { view_in (Some self.now) ≡ None → at.new ≡ at.old }
    {
        match self {
            OpenObject::View(view) => view.lend_answer(at),
            _ => 0,
        }
    }

    /// Returns the text that a member returned last.
    pub(crate) fn text(&self) -> &[u8]
        ensures { result.now ≡ text_of_member (Some self.now) }
    {
        match self {
            OpenObject::Member(member) => member.text(),
            _ => &[],
        }
    }
}
