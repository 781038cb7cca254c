ghost use Rattle.std.specs.Prelude.{◌≡◌, ◌⊎◌, ℕ, List, [], ◌∷◌, Some, None, codes};
ghost use Rattle.text_io.specs.declared.reason.Reason.{Reason};
ghost use Rattle.text_io.specs.declared.reason.Reason.TheVariants.{Section, Order, UnknownOption, Repeated, Value, Limit, Jbod};
ghost use Rattle.bc_history.specs.declared.scenario.Scenario.{Scenario};
ghost use Rattle.bc_history.specs.Scenario.LineFaults.{Stands, IsFirstFault};
ghost use Rattle.bc_history.specs.Scenario.TextExamples.{faults, said_by, one_port, two_clocks};

/// A text stands for a scenario, or it has a first fault, and never both.
pub fn a_text_stands_or_is_faulty()
    ensures either { (text : List ℕ) →
        ((s : Scenario) × Stands text s)
        ⊎ ((line : ℕ) × (reason : Reason) × IsFirstFault text line reason) }
    ensures apart { (text : List ℕ) (s : Scenario) (line : ℕ) (reason : Reason) → Stands text s →
        ¬ (IsFirstFault text line reason) }
{}

/// A text stands for one scenario at most.
pub fn one_scenario_stands()
    ensures { (text : List ℕ) (s t : Scenario) → Stands text s → Stands text t → s ≡ t }
{}

/// A text has one first fault at most.
pub fn one_fault_is_first()
    ensures line { (text : List ℕ) (line other : ℕ) (reason further : Reason) →
        IsFirstFault text line reason → IsFirstFault text other further → line ≡ other }
    ensures reason { (text : List ℕ) (line other : ℕ) (reason further : Reason) →
        IsFirstFault text line reason → IsFirstFault text other further → reason ≡ further }
{}

/// Texts that are judged line by line: what is wrong with each, and what they say.
pub fn texts_are_judged()
    ensures empty { faults (codes "") ≡ Some Section ∷ [] }
    ensures one_port { said_by (codes "[port 1]\r\n") ≡ one_port }
    ensures two_clocks { said_by
        (codes
        "# two\n[global]\nduration 1.5\nboundary_clock_jbod\t1\n[clock 0]\n[clock 1]\ndrift -2\n[port 1]\n\n[port 2 clock 1]\nannounceReceiptTimeout 4\n[records]\n07 2 0aF0\n7 1 down\n[queries]\n3 GET  0\n[schedule]\nclock 1 2")
        ≡ two_clocks }
    ensures headers { faults (codes " [clock 0]\n[clock 1]\n[port  1 clock 1]\n[port 2]")
        ≡ None ∷ None ∷ None ∷ Some Jbod ∷ None ∷ [] }
    ensures order { faults
        (codes "[port 01]\n[global]\n[port 3 clock 1]\n[port 2 clock 1]\n[port 2 ]")
        ≡ None ∷ Some Order ∷ Some Order ∷ Some Order ∷ Some Section ∷ None ∷ [] }
    ensures options { faults
        (codes "[global]\ntime 1\nduration 1\nduration\nwindow 0\npriority1 0x1")
        ≡ None ∷ Some UnknownOption ∷ None ∷ Some Repeated ∷ Some Value ∷ Some Value
        ∷ Some Section ∷ [] }
    ensures records { faults
        (codes
        "[port 1]\n[records]\n8 1 up\n7 1\n7 2 00\n9 1 0\n100000000000001 1 0\n100000000000001 1 00")
        ≡ None ∷ None ∷ None ∷ Some Order ∷ Some Value ∷ Some Value ∷ Some Value ∷ Some Limit
        ∷ None ∷ [] }
{}
