ghost use Rattle.record_reader.specs.TextLaws.{OneInstance, ValidInstance, FirstRefusal, LinkRefusal, LineFeedMore, CarriageReturnMore, Ascending, OwnFrequencies};

/// A text that is not refused has one instance, which is valid.
pub fn one_instance_law()
    ensures one { OneInstance }
    ensures valid { ValidInstance }
{}

/// A line that is refused for itself or for those before it is refused whatever follows it. Where
/// no line is, the causes that need the whole text decide.
pub fn refusal_law()
    ensures first { FirstRefusal }
    ensures later { LinkRefusal }
{}

/// A line feed more at the end of a text changes nothing, nor does a carriage return at the end of
/// a line that has none there.
pub fn line_end_law()
    ensures feed { LineFeedMore }
    ensures ret { CarriageReturnMore }
{}

/// The frequencies of a domain ascend, and are those that its entries give.
pub fn frequencies_law()
    ensures ascending { Ascending }
    ensures own { OwnFrequencies }
{}
