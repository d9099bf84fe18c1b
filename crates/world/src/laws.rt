//! The headline theorem, each law the contract of a function that does nothing.
ghost use Rattle.world.specs.Headline.{HeadlineHolds, HeadlinesGoOn};

/// States the headline: for every history in which no event meets a fault, and under every limit on
/// work, the logs agree; of any two libraries, at any two moments, the statements of one are a
/// prefix of the other's; the statements of each library are good; and each provable assertion of a
/// library has a derivation.
pub fn headline()
    ensures { HeadlineHolds }
{}

/// States the headline across crashes: if the nodes of a process begin with the kept parts that an
/// earlier run left, the logs of both agree as one run, and of any two libraries, at any two
/// moments of either, the statements of one are a prefix of the other's; the statements of each are
/// good, and each provable assertion has a derivation. A node at which nothing happens, since what
/// it kept is damaged or not to be had, may begin with anything.
pub fn headline_goes_on()
    ensures { HeadlinesGoOn }
{}
