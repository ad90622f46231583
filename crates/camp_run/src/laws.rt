//! Laws of runs: what the results of a script over a book, a lock and a head have in common, and what the text of a
//! history gives back.
ghost use Rattle.camp_run.specs.StoredTexts.{KeptLeadsBack, SeatZeroIsPreserved};
ghost use Rattle.camp_run.specs.Laws.{LockedSectionIsSerial, OneByOneIsSerial, SharedSectionIsSerial};

/// A script of one section has the same answers and history over a lock as in one thread, so `run_locked`
/// writes what `run_book` writes.
pub fn locked_section_is_serial()
    ensures law { LockedSectionIsSerial }
{}

/// A script of one section has the same answers and history over a head as in one thread, so `run_head`
/// writes what `run_book` writes.
pub fn shared_section_is_serial()
    ensures law { SharedSectionIsSerial }
{}

/// `camp_clients::serial` gives the answers and the history of a serial run as `specs/Serial` defines them: functions of
/// the sections alone.
pub fn one_by_one_is_serial()
    ensures law { OneByOneIsSerial }
{}

/// A history of at most 65,536 calls that leads to a state is preserved by its text: if the text is read as a script
/// and its calls are asked of a new repository, each is accepted, and they lead to the same state, and to the same
/// history except for the seats.
pub fn kept_text_leads_back()
    ensures law { KeptLeadsBack }
{}

/// If all calls of such a history are at seat 0, its text is read as exactly these calls, each is accepted, and they
/// lead to the same history.
pub fn seat_zero_is_preserved()
    ensures law { SeatZeroIsPreserved }
{}
