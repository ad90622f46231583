//! The laws of files that are stores.
ghost use Rattle.camp_kept.specs.Laws.{StoresAreOpened};

/// A file that decodes to accepted calls is opened with exactly these; only out of memory or the disk can prevent it. A
/// crash leaves only such files, also while a store is opened: a store of calls, as after
/// [`DurableRepository::commit`](crate::DurableRepository::commit), or one that is being created.
pub fn stores_are_opened()
    ensures law { StoresAreOpened }
{}
