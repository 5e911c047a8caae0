//! Laws of the grammar.
ghost use Rattle.std.specs.Prelude.{◌≡◌, ℕ, ◌+◌, ◌<◌, ◌^◌, ◌∷◌, ◌++◌, Bool, false, List, Err, Ok, Some, decimal, length};
ghost use Rattle.std.specs.List.{AllByRecursion, flat_map};
ghost use Rattle.jj_fast_import.specs.Commands.{command_at};
ghost use Rattle.jj_fast_import.specs.Lines.{data_at};
ghost use Rattle.jj_fast_import.specs.Printable.{IsPrintableBlob};
ghost use Rattle.jj_fast_import.specs.Quoting.{escape_of, unquoted};
ghost use Rattle.jj_fast_import.specs.Texts.{blob_text, data_text};
ghost use Rattle.jj_fast_import.specs.Values.{BlobValue, Blobs, CommandValue};
ghost use Rattle.jj_fast_import.specs.Words.{number_of};
ghost use Rattle.jj_fast_import.specs.declared.fault.Expected.{Expected};
ghost use Rattle.jj_fast_import.specs.declared.fault.Stop.TheVariants.{Malformed};
ghost use Rattle.jj_fast_import.specs.declared.quoting.Escape.TheVariants.{Outside};

/// A path in quotes is read again, whatever follows it.
pub fn quoted_paths_are_read_again()
    ensures { (path rest : List ℕ) → AllByRecursion (λ b. b < 256) path
        → unquoted Outside (flat_map escape_of path ++ 34 ∷ rest) ≡ Some (path, rest) }
{}

/// A printed number is read again.
pub fn numbers_are_read_again()
    ensures { (n : ℕ) → n < 2 ^ 64 → number_of (decimal n) ≡ Some n }
{}

/// A printed block of data is read again, whatever follows it: as many bytes as it announces.
pub fn data_is_read_again()
    ensures { (at_end : Bool) (bytes rest : List ℕ) → length bytes < 2 ^ 64
        → data_at at_end (data_text bytes ++ rest) ≡ Ok (bytes, 10 ∷ rest) }
{}

/// A printed blob is read again, whatever follows it.
pub fn blobs_are_read_again()
    ensures { (at_end : Bool) (blob : BlobValue) (rest : List ℕ) → IsPrintableBlob blob
        → command_at at_end (blob_text blob ++ rest) ≡ Ok (Some (Blobs blob, rest)) }
{}

/// A command takes bytes from the start, and the rest are the others.
pub fn commands_take_prefixes()
    ensures { (at_end : Bool) (bytes rest : List ℕ) (command : CommandValue)
        → command_at at_end bytes ≡ Ok (Some (command, rest))
        → (taken : List ℕ) × (bytes ≡ taken ++ rest) }
{}

/// A command that bytes begin with is the one that they begin with when more bytes follow.
pub fn commands_stay()
    ensures { (at_end : Bool) (bytes more rest : List ℕ) (command : CommandValue)
        → command_at false bytes ≡ Ok (Some (command, rest))
        → command_at at_end (bytes ++ more) ≡ Ok (Some (command, rest ++ more)) }
{}

/// A line that the grammar does not allow stays the first such line when more bytes follow.
pub fn malformed_lines_stay()
    ensures { (at_end : Bool) (bytes more : List ℕ) (expected : Expected) (left : ℕ)
        → command_at false bytes ≡ Err (Malformed expected left)
        → command_at at_end (bytes ++ more) ≡ Err (Malformed expected (left + length more)) }
{}
