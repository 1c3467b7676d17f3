// Laws of messages: what the definitions that the code is held to mean, in the words of the grammar.
#![tactic(auto)]

ghost use Rattle.message_laws.specs.ChunkFaults.{ChunksRefused};
ghost use Rattle.message_laws.specs.Laws.{BodyCutFree, BodyStays, BodyFits, ChunksCutFree, ChunksStay, ChunksFit, ChunksRead, OnlyChunks};

// Where a body is cut into pieces does not matter.
pub fn body_cut_free()
    ensures { BodyCutFree }
{}

// A body that ended or is refused stays so, whatever follows.
pub fn body_stays()
    ensures { BodyStays }
{}

// Where there is room for a body, there is room for the rest of it behind what a piece held.
pub fn body_fits()
    ensures { BodyFits }
{}

// Where a chunked body is cut into pieces does not matter.
pub fn chunks_cut_free()
    ensures { ChunksCutFree }
{}

// A chunked body that ended or is refused stays so, whatever follows.
pub fn chunks_stay()
    ensures { ChunksStay }
{}

// Where there is room for a chunked body, there is room for the rest of it behind what a piece held.
pub fn chunks_fit()
    ensures { ChunksFit }
{}

// A chunked body is read to its end and to no byte more, and gives what it holds.
pub fn chunks_read()
    ensures { ChunksRead }
{}

// What is read to an end is a chunked body.
pub fn only_chunks()
    ensures { OnlyChunks }
{}

// A chunked body is refused exactly where it breaks the grammar, at the first byte that does.
pub fn chunks_refused()
    ensures { ChunksRefused }
{}
