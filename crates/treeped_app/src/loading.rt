//! Loading of files, one after another.
ghost use Rattle.std.specs.Prelude.{◌≡◌, [], ◌∷◌};
ghost use Rattle.treeped_app.specs.Inputs.{OneLoaded, AllLoaded, loaded_text, loaded_two, loaded_three};
ghost use Rattle.treeped_app.specs.Views.{wanted_of};

use run_ends::{Part, Stop};
use std::alloc::Global;
use tp_io::{Files, LoadFault};

/// A file to load: its part in the run, and its name.
#[derive(Clone, Copy)]
pub(crate) struct Wanted<'a> {
    pub(crate) part: Part,
    pub(crate) name: &'a str,
}

// Loads one file.
fn load<F: Files>(alloc: Global, name: &str, part: Part, files: &mut F) -> Result<Vec<u8>, Stop>
    ensures same_files { F.told files.new ≡ F.told files.old }
    ensures loaded { OneLoaded (F.told files.old) name.now part (F.loads files.old) (F.loads files.new) (loaded_text result) }
{
    let mut bytes = Vec::new(alloc);
    match files.load(name, &mut bytes) {
        Ok(()) => Ok(bytes),
        Err(LoadFault::Failed) => Err(Stop::ReadFault(part)),
        Err(LoadFault::TooLarge) => Err(Stop::TooLarge(part)),
        Err(LoadFault::Memory) => Err(Stop::NoMemory),
    }
}

/// Loads two files, in this order.
pub(crate) fn load_two<F: Files>(
    alloc: Global,
    first: &Wanted<'_>,
    second: &Wanted<'_>,
    files: &mut F,
) -> Result<(Vec<u8>, Vec<u8>), Stop>
    ensures same_files { F.told files.new ≡ F.told files.old }
    ensures loaded { AllLoaded (F.told files.old) (wanted_of first.now ∷ wanted_of second.now ∷ []) (F.loads files.old) (F.loads files.new) (loaded_two result) }
{
    let one = load(alloc, first.name, first.part, files)?;
    let two = load(alloc, second.name, second.part, files)?;
    Ok((one, two))
}

/// Loads three files, in this order.
pub(crate) fn load_three<F: Files>(
    alloc: Global,
    first: &Wanted<'_>,
    second: &Wanted<'_>,
    third: &Wanted<'_>,
    files: &mut F,
) -> Result<(Vec<u8>, Vec<u8>, Vec<u8>), Stop>
    ensures same_files { F.told files.new ≡ F.told files.old }
    ensures loaded { AllLoaded (F.told files.old) (wanted_of first.now ∷ wanted_of second.now ∷ wanted_of third.now ∷ []) (F.loads files.old) (F.loads files.new) (loaded_three result) }
{
    let one = load(alloc, first.name, first.part, files)?;
    let (two, three) = load_two(alloc, second, third, files)?;
    Ok((one, two, three))
}
