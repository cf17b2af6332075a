//! The theory of chains: what is true of every table and of every change of one. The layers above use these theorems;
//! the contract below names them, so that the crate is built only with all of them proved.

ghost use Rattle.links.specs.Theory.{Unique, Framed, Sounds, Disjoint, Within, Decides, Heads, Takes, Grows, Appends, Extends, Cuts, Shortens, Frees, Wipes, Steps, Trims};

// Does nothing; it stands for the theorems.
pub fn chains_stand()
    ensures unique { Unique }
    ensures framed { Framed }
    ensures sounds { Sounds }
    ensures disjoint { Disjoint }
    ensures within { Within }
    ensures decides { Decides }
    ensures heads { Heads }
    ensures takes { Takes }
    ensures grows { Grows }
    ensures appends { Appends }
    ensures extends { Extends }
    ensures cuts { Cuts }
    ensures shortens { Shortens }
    ensures frees { Frees }
    ensures wipes { Wipes }
    ensures steps { Steps }
    ensures trims { Trims }
{}
