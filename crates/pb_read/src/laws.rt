//! Laws of the definitions: each text has one reading.
ghost use Rattle.std.specs.Prelude.{◌≡◌, List, ℕ, None};
ghost use Rattle.pb_inst.specs.Literal.{Literal};
ghost use Rattle.pb_inst.specs.Problem.{Problem};
ghost use Rattle.pb_read.specs.Opb.{OpbText, opb_refusal};
ghost use Rattle.pb_read.specs.Cnf.{CnfText, cnf_refusal};
ghost use Rattle.pb_read.specs.Icnf.{IcnfText, icnf_refusal};
ghost use Rattle.pb_read.specs.Cubes.{CubeText, cube_refusal};

/// Each OPB text spells one instance or has a refusal, and not both.
pub fn one_reading_of_opb()
    ensures spells { (text : List ℕ) → opb_refusal text ≡ None → (i : Problem) × OpbText text i }
    ensures not_both { (text : List ℕ) (i : Problem) → OpbText text i → opb_refusal text ≡ None }
    ensures one { (text : List ℕ) (i j : Problem) → OpbText text i → OpbText text j → i ≡ j }
{}

/// Each CNF text spells one instance or has a refusal, and not both.
pub fn one_reading_of_cnf()
    ensures spells { (text : List ℕ) → cnf_refusal text ≡ None → (i : Problem) × CnfText text i }
    ensures not_both { (text : List ℕ) (i : Problem) → CnfText text i → cnf_refusal text ≡ None }
    ensures one { (text : List ℕ) (i j : Problem) → CnfText text i → CnfText text j → i ≡ j }
{}

/// Each iCNF text spells one instance and its cubes or has a refusal, and not both.
pub fn one_reading_of_icnf()
    ensures spells { (text : List ℕ) → icnf_refusal text ≡ None → (i : Problem) × (cubes : List (List Literal)) × IcnfText text i cubes }
    ensures not_both { (text : List ℕ) (i : Problem) (cubes : List (List Literal)) → IcnfText text i cubes → icnf_refusal text ≡ None }
    ensures one { (text : List ℕ) (i j : Problem) (cs ds : List (List Literal)) → IcnfText text i cs → IcnfText text j ds → (i ≡ j) × (cs ≡ ds) }
{}

/// Each cube file spells one list of cubes over n variables or has a refusal, and not both.
pub fn one_reading_of_cubes()
    ensures spells { (text : List ℕ) (n : ℕ) → cube_refusal text n ≡ None → (cubes : List (List Literal)) × CubeText text n cubes }
    ensures not_both { (text : List ℕ) (n : ℕ) (cubes : List (List Literal)) → CubeText text n cubes → cube_refusal text n ≡ None }
    ensures one { (text : List ℕ) (n : ℕ) (cs ds : List (List Literal)) → CubeText text n cs → CubeText text n ds → cs ≡ ds }
{}
