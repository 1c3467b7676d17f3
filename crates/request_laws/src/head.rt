// How the lines of a head are read: what is found in them is what their grammar says, and the other way round.
ghost use Rattle.request_laws.specs.HeadLaws.{FirstRead, FieldsRead};

// A first line is good exactly where it is a method, a target and the version, with a space between them.
pub fn first_read()
    ensures { FirstRead }
{}

// The fields of a head are found exactly where it begins with the lines of few enough fields and an empty line.
pub fn fields_read()
    ensures { FieldsRead }
{}
