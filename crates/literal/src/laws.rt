ghost use Rattle.literal.specs.Escapes.{Readings};
ghost use Rattle.literal.specs.Examples.{Examples};
ghost use Rattle.literal.specs.Laws.{IntegersReadBack, SizesMultiply, NegativesFold, EscapedBytesReadBack, RegexpsReadBack, DecimalsReadBack};

// Each says what it is named after, of every literal.

pub fn integers_read_back()
    ensures { IntegersReadBack }
{}

pub fn sizes_multiply()
    ensures { SizesMultiply }
{}

pub fn negatives_fold()
    ensures { NegativesFold }
{}

pub fn escapes_have_one_reading()
    ensures { Readings }
{}

pub fn escaped_bytes_read_back()
    ensures { EscapedBytesReadBack }
{}

pub fn regexps_read_back()
    ensures { RegexpsReadBack }
{}

pub fn decimals_read_back()
    ensures { DecimalsReadBack }
{}

pub fn worked_examples()
    ensures { Examples }
{}
