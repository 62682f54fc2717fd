ghost use Rattle.std.specs.Prelude.{◌≡◌, ◌⊎◌, ◌≢◌, ◌<◌, ◌≤◌, ◌∷◌, [], ℕ, List, Some, true, length, map, string_bytes, codes, IfOk};
ghost use Rattle.txs_outside.specs.Causes.{Rose};
ghost use Rattle.txs_outside.specs.Hanging.{more};
ghost use Rattle.txs_outside.specs.Known.{Grows, Tells};
ghost use Rattle.txs_words.specs.File.{IsFile};
ghost use Rattle.txs_drive.specs.Served.{Served};
ghost use Rattle.txs_drive.specs.Cut.{Torn, CutShort, by_sink, by_memory};
ghost use Rattle.txs_top.specs.Top.{IsRun, IsNoForm, IsNoFile, Asked, Ran, OfFile, IsTooLong, IsLong};

use std::alloc::Global;
use txs_drive::{close, run_plain};
use txs_outside::{Files, FilesFault, Sink, Source, Status, Sut};
use txs_words::{LoadFault, run_load};

const USAGE: &str = "usage: txs run FILE\n";

const REFUSED: &str = "REFUSED Later 0\n";

/// Runs a file.
fn run<F: Files, S: Source, K: Sink, U: Sut>(
    alloc: Global,
    file: &str,
    files: &mut F,
    source: &mut S,
    sink: &mut K,
    sut: &mut U,
) -> Status
    ensures headline { (result.code ≡ 0) ⊎ (result.code ≡ 10) → OfFile (F.contents files.old file.now) (λ m. Served m
        (S.given source.old) (S.given source.new) (S.left source.old) (S.left source.new) (S.at_end source.new) (K.taken sink.old) (K.taken sink.new)
        (U.calls sut.old) (U.calls sut.new) (U.hang_ups sut.old) (U.hang_ups sut.new) (U.faults sut.old) (U.faults sut.new) result.code) }
    ensures refused { (bytes : List ℕ) → F.contents files.old file.now ≡ Some bytes → length bytes ≤ 1048576 → IsNoFile bytes
        → (result.code ≡ 2) ⊎ (result.code ≡ 4) ⊎ (result.code ≡ 5) ⊎ (result.code ≡ 3) × Rose (F.faults files.old) (F.faults files.new) }
    ensures refused_only { result.code ≡ 2 → (bytes : List ℕ) × Tells (F.contents files.old file.now) bytes × IsNoFile bytes }
    ensures refused_unread { (bytes : List ℕ) → F.contents files.old file.now ≡ Some bytes → IsNoFile bytes → (source.new ≡ source.old) × (sut.new ≡ sut.old) }
    ensures refused_line { result.code ≡ 2 → Grows (K.taken sink.old) (K.taken sink.new) (codes "REFUSED Later 0\n") }
    ensures refused_alone { result.code ≡ 2 → (source.new ≡ source.old) × (sut.new ≡ sut.old) }
    ensures read { result.code ≡ 3 →
        Rose (F.faults files.old) (F.faults files.new) × (source.new ≡ source.old) × (sink.new ≡ sink.old) × (sut.new ≡ sut.old)
        ⊎ (S.faults source.new ≡ more (S.faults source.old)) × (S.has_failed source.new ≡ true) × OfFile (F.contents files.old file.now) (λ m. Served m
        (S.given source.old) (S.given source.new) (S.left source.old) (S.left source.new) (S.at_end source.new) (K.taken sink.old) (K.taken sink.new)
        (U.calls sut.old) (U.calls sut.new) (U.hang_ups sut.old) (U.hang_ups sut.new) (U.faults sut.old) (U.faults sut.new) result.code) }
    ensures write { result.code ≡ 4 → (K.faults sink.new ≡ more (K.faults sink.old)) × (K.has_failed sink.new ≡ true) }
    ensures torn { result.code ≡ 4 →
        ((bytes : List ℕ) × Tells (F.contents files.old file.now) bytes × IsNoFile bytes
        × Torn (K.taken sink.old) (K.taken sink.new) (codes "REFUSED Later 0\n") × (source.new ≡ source.old) × (sut.new ≡ sut.old))
        ⊎ OfFile (F.contents files.old file.now) (λ m. CutShort by_sink m
        (S.given source.old) (S.given source.new) (S.left source.old) (S.left source.new) (S.at_end source.new) (K.taken sink.old) (K.taken sink.new)
        (U.calls sut.old) (U.calls sut.new) (U.hang_ups sut.old) (U.hang_ups sut.new) (U.faults sut.old) (U.faults sut.new)) }
    ensures memory { result.code ≡ 5 →
        (source.new ≡ source.old) × (sink.new ≡ sink.old) × (sut.new ≡ sut.old)
        ⊎ OfFile (F.contents files.old file.now) (λ m. CutShort by_memory m
        (S.given source.old) (S.given source.new) (S.left source.old) (S.left source.new) (S.at_end source.new) (K.taken sink.old) (K.taken sink.new)
        (U.calls sut.old) (U.calls sut.new) (U.hang_ups sut.old) (U.hang_ups sut.new) (U.faults sut.old) (U.faults sut.new)) }
    ensures all_read { result.code ≢ 3 → (F.faults files.new ≡ F.faults files.old) × (S.faults source.new ≡ S.faults source.old) }
    ensures all_written { result.code ≢ 4 → K.faults sink.new ≡ K.faults sink.old }
    ensures hung { U.dialled sut.old ≡ 0 → U.dialled sut.new ≡ 0 }
    ensures limit { result.code ≡ 6 →
        IsLong (F.contents files.old file.now) × (source.new ≡ source.old) × (sink.new ≡ sink.old) × (sut.new ≡ sut.old)
        ⊎ OfFile (F.contents files.old file.now) (λ m. Served m
        (S.given source.old) (S.given source.new) (S.left source.old) (S.left source.new) (S.at_end source.new) (K.taken sink.old) (K.taken sink.new)
        (U.calls sut.old) (U.calls sut.new) (U.hang_ups sut.old) (U.hang_ups sut.new) (U.faults sut.old) (U.faults sut.new) result.code) }
    ensures file_limit { (bytes : List ℕ) → F.contents files.old file.now ≡ Some bytes → 1048576 < length bytes
        → (result.code ≡ 6) ⊎ (result.code ≡ 5) ⊎ (result.code ≡ 3) × Rose (F.faults files.old) (F.faults files.new) }
    ensures long_unread { (bytes : List ℕ) → F.contents files.old file.now ≡ Some bytes → 1048576 < length bytes
        → (source.new ≡ source.old) × (sink.new ≡ sink.old) × (sut.new ≡ sut.old) }
    ensures known { (result.code ≡ 0) ⊎ (result.code ≡ 10) ⊎ (result.code ≡ 2) ⊎ (result.code ≡ 3) ⊎ (result.code ≡ 4) ⊎ (result.code ≡ 5) ⊎ (result.code ≡ 6) }
{
    match files.read_all(alloc, file) {
        Err(FilesFault::Failed) => Status { code: 3 },
        Err(FilesFault::TooBig) => Status { code: 6 },
        Err(FilesFault::NoMemory) => Status { code: 5 },
        Ok(bytes) => match run_load(alloc, bytes.as_slice()) {
            Err(LoadFault::Later) => close(sink, REFUSED, 2),
            Err(LoadFault::NoMemory) => Status { code: 5 },
            Ok(model) => run_plain(alloc, &model, source, sink, sut),
        },
    }
}

/// The program: words, file, acceptance, session, in this order. It writes to `sink` alone, and calls `sut` alone.
///
/// The statuses are 0 and 10 of a session, 1 for other words, 2 for a file that is refused, 3, 4 and 5 if the source
/// or the files, the sink, or memory failed, and 6 past a limit of bytes.
pub fn top<F: Files, S: Source, K: Sink, U: Sut>(
    alloc: Global,
    words: &[String],
    files: &mut F,
    source: &mut S,
    sink: &mut K,
    sut: &mut U,
) -> Status
    // A session's status: what it wrote and called, and the status, are those of the reference run of the file's model,
    // for the commands that the source gave and what the system told.
    ensures headline { (result.code ≡ 0) ⊎ (result.code ≡ 10) → Ran (map string_bytes words.now) (F.contents files.old) (λ m. Served m
        (S.given source.old) (S.given source.new) (S.left source.old) (S.left source.new) (S.at_end source.new) (K.taken sink.old) (K.taken sink.new)
        (U.calls sut.old) (U.calls sut.new) (U.hang_ups sut.old) (U.hang_ups sut.new) (U.faults sut.old) (U.faults sut.new) result.code) }

    // Status 1 stands exactly if the words fit no form, but for a fault of the sink; then the usage line is written
    // and nothing else is done.
    ensures usage { IsNoForm (map string_bytes words.now) → (result.code ≡ 1) ⊎ (result.code ≡ 4) }
    ensures usage_only { result.code ≡ 1 → IsNoForm (map string_bytes words.now) }
    ensures usage_line { result.code ≡ 1 → Grows (K.taken sink.old) (K.taken sink.new) (codes "usage: txs run FILE\n") }
    ensures usage_alone { IsNoForm (map string_bytes words.now) → (files.new ≡ files.old) × (source.new ≡ source.old) × (sut.new ≡ sut.old) }

    // Status 2 stands exactly if the file is not of the form, but for a fault or want of memory; then the refusal is
    // written and nothing else is done.
    ensures refused { (file : List ℕ) (bytes : List ℕ) → IsRun (map string_bytes words.now) file → F.contents files.old file ≡ Some bytes → length bytes ≤ 1048576 → IsNoFile bytes
        → (result.code ≡ 2) ⊎ (result.code ≡ 4) ⊎ (result.code ≡ 5) ⊎ (result.code ≡ 3) × Rose (F.faults files.old) (F.faults files.new) }
    ensures refused_only { result.code ≡ 2 → (bytes : List ℕ) × Asked (map string_bytes words.now) (F.contents files.old) bytes × IsNoFile bytes }
    ensures refused_unread { (file : List ℕ) (bytes : List ℕ) → IsRun (map string_bytes words.now) file → F.contents files.old file ≡ Some bytes → IsNoFile bytes
        → (source.new ≡ source.old) × (sut.new ≡ sut.old) }
    ensures refused_line { result.code ≡ 2 → Grows (K.taken sink.old) (K.taken sink.new) (codes "REFUSED Later 0\n") }
    ensures refused_alone { result.code ≡ 2 → (source.new ≡ source.old) × (sut.new ≡ sut.old) }

    // Status 3 stands only if the count of the files rose, or if the source's last read failed and no other read of the
    // session did, so that nothing was read after it.
    ensures read { result.code ≡ 3 →
        Rose (F.faults files.old) (F.faults files.new) × (source.new ≡ source.old) × (sink.new ≡ sink.old) × (sut.new ≡ sut.old)
        ⊎ (S.faults source.new ≡ more (S.faults source.old)) × (S.has_failed source.new ≡ true) × Ran (map string_bytes words.now) (F.contents files.old) (λ m. Served m
        (S.given source.old) (S.given source.new) (S.left source.old) (S.left source.new) (S.at_end source.new) (K.taken sink.old) (K.taken sink.new)
        (U.calls sut.old) (U.calls sut.new) (U.hang_ups sut.old) (U.hang_ups sut.new) (U.faults sut.old) (U.faults sut.new) result.code) }

    // Status 4 stands only if the sink's last write failed and no other write did, so that nothing was written after
    // it. A beginning of the line that was due is taken then, after the whole lines of the session, whose calls were
    // made up to there.
    ensures write { result.code ≡ 4 → (K.faults sink.new ≡ more (K.faults sink.old)) × (K.has_failed sink.new ≡ true) }
    ensures torn { result.code ≡ 4 →
        IsNoForm (map string_bytes words.now) × Torn (K.taken sink.old) (K.taken sink.new) (codes "usage: txs run FILE\n")
        ⊎ ((bytes : List ℕ) × Asked (map string_bytes words.now) (F.contents files.old) bytes × IsNoFile bytes
        × Torn (K.taken sink.old) (K.taken sink.new) (codes "REFUSED Later 0\n") × (source.new ≡ source.old) × (sut.new ≡ sut.old))
        ⊎ Ran (map string_bytes words.now) (F.contents files.old) (λ m. CutShort by_sink m
        (S.given source.old) (S.given source.new) (S.left source.old) (S.left source.new) (S.at_end source.new) (K.taken sink.old) (K.taken sink.new)
        (U.calls sut.old) (U.calls sut.new) (U.hang_ups sut.old) (U.hang_ups sut.new) (U.faults sut.old) (U.faults sut.new)) }

    // If memory ran out, nothing was done yet, or NOMEM closes the whole lines of the session, whose calls were made
    // up to there.
    ensures memory { result.code ≡ 5 →
        (source.new ≡ source.old) × (sink.new ≡ sink.old) × (sut.new ≡ sut.old)
        ⊎ Ran (map string_bytes words.now) (F.contents files.old) (λ m. CutShort by_memory m
        (S.given source.old) (S.given source.new) (S.left source.old) (S.left source.new) (S.at_end source.new) (K.taken sink.old) (K.taken sink.new)
        (U.calls sut.old) (U.calls sut.new) (U.hang_ups sut.old) (U.hang_ups sut.new) (U.faults sut.old) (U.faults sut.new)) }

    // A failed read leads to 3 and a failed write to 4: with another status no count rose.
    ensures all_read { result.code ≢ 3 → (F.faults files.new ≡ F.faults files.old) × (S.faults source.new ≡ S.faults source.old) }
    ensures all_written { result.code ≢ 4 → K.faults sink.new ≡ K.faults sink.old }

    // In the end nothing is dialled, whatever the status.
    ensures hung { U.dialled sut.old ≡ 0 → U.dialled sut.new ≡ 0 }

    // Status 6 stands exactly if the file is too long or a byte past the limit of commands was read, but for a fault
    // or want of memory.
    ensures limit { result.code ≡ 6 →
        IsTooLong (map string_bytes words.now) (F.contents files.old) × (source.new ≡ source.old) × (sink.new ≡ sink.old) × (sut.new ≡ sut.old)
        ⊎ Ran (map string_bytes words.now) (F.contents files.old) (λ m. Served m
        (S.given source.old) (S.given source.new) (S.left source.old) (S.left source.new) (S.at_end source.new) (K.taken sink.old) (K.taken sink.new)
        (U.calls sut.old) (U.calls sut.new) (U.hang_ups sut.old) (U.hang_ups sut.new) (U.faults sut.old) (U.faults sut.new) result.code) }
    ensures file_limit { (file : List ℕ) (bytes : List ℕ) → IsRun (map string_bytes words.now) file → F.contents files.old file ≡ Some bytes → 1048576 < length bytes
        → (result.code ≡ 6) ⊎ (result.code ≡ 5) ⊎ (result.code ≡ 3) × Rose (F.faults files.old) (F.faults files.new) }
    ensures long_unread { (file : List ℕ) (bytes : List ℕ) → IsRun (map string_bytes words.now) file → F.contents files.old file ≡ Some bytes → 1048576 < length bytes
        → (source.new ≡ source.old) × (sink.new ≡ sink.old) × (sut.new ≡ sut.old) }

    // No other status is given.
    ensures known { (result.code ≡ 0) ⊎ (result.code ≡ 10) ⊎ (result.code ≡ 1) ⊎ (result.code ≡ 2) ⊎ (result.code ≡ 3) ⊎ (result.code ≡ 4) ⊎ (result.code ≡ 5) ⊎ (result.code ≡ 6) }
{
    if let [word, file] = words
        && word.as_str() == "run"
    {
        return run(alloc, file.as_str(), files, source, sink, sut);
    }
    close(sink, USAGE, 1)
}
