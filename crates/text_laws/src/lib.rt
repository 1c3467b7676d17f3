// Laws of texts: what the definitions that the code is held to mean, in words of texts joined together.
#![tactic(auto)]

ghost use Rattle.text_laws.specs.Laws.{WholeLine, ShortLine, StrayLine, Trims, Squeezes, ReadBack, ExactNumeral};

// A line is cut off exactly where the text is a clean line, CR LF and the rest.
pub fn whole_line()
    ensures { WholeLine }
{}

// A text is short of a line exactly where it is clean, or clean but for a last CR.
pub fn short_line()
    ensures { ShortLine }
{}

// A CR or LF is stray exactly where only clean bytes stand before it and it ends no line.
pub fn stray_line()
    ensures { StrayLine }
{}

// A trimmed value is what is left when all blanks at both ends are taken away.
pub fn trims()
    ensures { Trims }
{}

// A squeezed value has one space for each run of blanks, and is else as it was.
pub fn squeezes()
    ensures { Squeezes }
{}

// A number of few enough digits is read back as it was written.
pub fn read_back()
    ensures { ReadBack }
{}

// A numeral of a number of 64 bits has some digits, is worth that number, and has no needless zero.
pub fn exact_numeral()
    ensures { ExactNumeral }
{}
