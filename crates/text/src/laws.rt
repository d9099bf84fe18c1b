//! Laws about the definitions of `specs/FileNames`, each the contract of a function that does
//! nothing.
ghost use Rattle.text.specs.Laws.{NamesDiffer, NamesStayInAFolder};

/// States that two file names are equal only if their labels or their positions are equal. Two
/// assertions of a legal database have different labels and different positions, so they have
/// different files.
pub fn names_differ()
    ensures { NamesDiffer }
{}

/// States that a file name consists of lowercase letters, digits, `.`, `-`, `_` and `+`, is not
/// empty and does not begin with a dot. It has no path separator, so the file is in the folder of
/// the site; it has no uppercase letter, so different names stay different on a file system that
/// ignores case.
pub fn names_stay_in_a_folder()
    ensures { NamesStayInAFolder }
{}
