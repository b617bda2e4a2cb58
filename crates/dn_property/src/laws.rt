//! Laws of how properties are stored.

ghost use Rattle.dn_property.specs.FirstFault.{FirstFaultIsOne};
ghost use Rattle.dn_property.specs.Laws.{HasOneSpelling, IsSpelledOnce};
ghost use Rattle.dn_property.specs.Ranges.{PropertiesAreInRange};

/// Bytes are one property at most.
pub fn properties_are_spelled_once()
    ensures { IsSpelledOnce }
{}

/// The bytes of a property are the only ones that are it.
pub fn properties_have_one_spelling()
    ensures { HasOneSpelling }
{}

/// What is wrong first with bytes that are no property has one kind and one place, and such bytes are none.
pub fn first_faults_are_one()
    ensures { FirstFaultIsOne }
{}

/// The property that bytes are has numbers within their widths, and bytes as content and tail.
pub fn properties_are_in_range()
    ensures { PropertiesAreInRange }
{}
