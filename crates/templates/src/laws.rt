// The statement is in specs/, and its proof in proofs/.
ghost use Rattle.templates.specs.Laws.{AdoptsTheSound};

/// A template adopts exactly what is sound: the questions let nothing else through, and refuse nothing that is.
pub fn adopts_exactly_the_sound()
    ensures { AdoptsTheSound }
{}
