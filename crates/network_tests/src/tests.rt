mod area_tables_tests;
mod ban_expansion_tests;
mod drawn_network_tests;
mod minute_sets_tests;
mod network_tables_tests;
mod trip_explain_tests;
mod uses_tests;
