// Laws of the definitions that need no call.
ghost use Rattle.std.specs.Prelude.{◌≡◌, ℕ, List, option_map};
ghost use Rattle.vehicle_classes.specs.VehicleModel.{VehicleModel};
ghost use Rattle.vehicle_classes.specs.declared.classes.Key.{Key};
ghost use Rattle.network_tables.specs.Access.{access_given};
ghost use Rattle.network_tables.specs.NetworkModel.{NetworkModel};
ghost use Rattle.road_access.specs.Rulings.{ruling_given};

/// The law that the access of the ruling of some keys is the access that these keys give. The call does nothing.
pub fn ruling_decides()
    ensures { (network : NetworkModel) (vehicle : VehicleModel) (a t : ℕ) (keys : List Key)
        → option_map (λ ruling. ruling.access) (ruling_given network vehicle a t keys)
        ≡ access_given network vehicle a t keys }
{}
