//! What follows from the definitions alone.

ghost use Rattle.std.specs.Prelude.{◌≡◌, ◌++◌, ℕ, List};
ghost use Rattle.ipc_disk.specs.declared.range.Range.{Range};
ghost use Rattle.ipc_disk.specs.Medium.{Image};
ghost use Rattle.ipc_journal.specs.Journal.{Holds, Stand};
ghost use Rattle.ipc_journal.specs.declared.form.Form.{Form};
ghost use Rattle.ipc_journal.specs.declared.form.Form.TheVariants.{Headed, Tagged};
ghost use Rattle.ipc_journal.specs.Meanwhile.{HoldsAlone, IsPartOf, IsReadFrom};

/// An image of a disk is one list of batches at an epoch, and no two.
pub fn an_image_is_one_journal()
    ensures { (form : Form) (range : Range) (epoch : ℕ) (batches others : List (List ℕ)) (image : Image)
        → Holds form range epoch batches image → Holds form range epoch others image → batches ≡ others }
{}

/// Who reads a journal while batches are appended reads those that its header counts when that is read.
pub fn a_journal_that_grows_is_read_whole()
    ensures { (range : Range) (epoch : ℕ) (batches : List (List ℕ)) (first read : Image)
        → Holds Headed range epoch batches first → IsReadFrom range epoch first read
        → Holds Headed range epoch batches read }
{}

/// Who reads tagged sectors while batches are appended reads some of the batches that come, from the first on, and at
/// least those that stand there: an image that is a part of one with all of them holds so many. A part of a part is a
/// part; and so is an image that has the batches of the whole one, and the whole one of it.
pub fn tagged_batches_are_read_from_the_first_on()
    ensures read { (range : Range) (epoch : ℕ) (earlier batches : List (List ℕ)) (whole image : Image)
        → Holds Tagged range epoch batches whole → IsPartOf range epoch whole image
        → Stand Tagged range epoch earlier image
        → (kept : List (List ℕ)) × (rest : List (List ℕ)) × (batches ≡ earlier ++ (kept ++ rest))
        × Holds Tagged range epoch (earlier ++ kept) image }
    ensures next { (range : Range) (epoch : ℕ) (whole mid image : Image)
        → IsPartOf range epoch whole mid → IsPartOf range epoch mid image → IsPartOf range epoch whole image }
    ensures same { (range : Range) (epoch : ℕ) (batches : List (List ℕ)) (whole image : Image)
        → HoldsAlone range epoch batches whole → Holds Tagged range epoch batches image
        → IsPartOf range epoch whole image → IsPartOf range epoch image whole }
{}
