mod front_words_tests;
mod net_generator_tests;
mod trip_batch_tests;
