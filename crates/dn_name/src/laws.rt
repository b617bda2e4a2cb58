//! Laws of how names are spelled in a message (RFC 1035 4.1.4).

ghost use Rattle.dn_name.specs.FirstFault.{FirstFaultIsOne};
ghost use Rattle.dn_name.specs.PlainFault.{PlainFaultIsNoName, PlainFaultIsOne};
ghost use Rattle.dn_name.specs.Spelled.{IsSpelledOnce, PlainIsSpelled, PointersFall, WireIsSpelled};

/// At a place of a message one name is spelled at most, and one place is behind it.
pub fn names_are_spelled_once()
    ensures { IsSpelledOnce }
{}

/// The pointers of a name lead ever further to the front, so that no name leads round.
pub fn pointers_fall()
    ensures { PointersFall }
{}

/// A name without pointers is spelled wherever its bytes stand, and so is what `Name::read_plain` finds.
pub fn plain_names_are_spelled()
    ensures wire { WireIsSpelled }
    ensures plain { PlainIsSpelled }
{}

/// What is wrong first with a name has one kind and one place.
pub fn first_faults_are_one()
    ensures { FirstFaultIsOne }
{}

/// What is wrong first with a name without pointers has one kind and one place, and no such name stands there.
pub fn plain_faults_are_one()
    ensures one { PlainFaultIsOne }
    ensures none { PlainFaultIsNoName }
{}
