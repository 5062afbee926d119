// Drawn files have no fault, and state the drawn network.
ghost use Rattle.std.specs.Prelude.{◌≡◌, ℕ, None};
ghost use Rattle.net_generator.specs.Sizes.{IsDrawable};
ghost use Rattle.network_tables.specs.NetworkFiles.{contents_fault, network_in_files};
ghost use Rattle.drawn_network.specs.DrawnFiles.{drawn_files};
ghost use Rattle.drawn_network.specs.DrawnNetwork.{network_drawn};

/// The law of drawn files: they have no fault, and state the network that is drawn, with each road, closure and parking area. The call
/// does nothing.
pub fn drawn_files_are_good()
    ensures faultless { (number rows columns : ℕ) → IsDrawable number rows columns
        → contents_fault (drawn_files number rows columns) ≡ None }
    ensures network { (number rows columns : ℕ) → IsDrawable number rows columns
        → network_in_files (drawn_files number rows columns) ≡ network_drawn number rows columns }
{}
